// Opens a text many times, for a measurement of speed. The first byte of the input says how often: `1` 2,001 times, another once.
// The rest is the text. Prints the node count.
#![tactic(auto)]

use record_text::{Entry, open};
use records::MOST_NODES;
use refusals::Refusal;
use std::io::Read;

fn open_often(text: &[u8], list: &mut [Entry], times: usize) -> Result<usize, Refusal> {
    let mut nodes = 0;
    for _ in 0..times {
        nodes = open(text, list)?;
    }
    Ok(nodes)
}

fn main(rt: HostRuntime) -> anyhow::Result<()> {
    let mut input = Vec::new(rt.alloc());
    rt.stdin().read_to_end(&mut input)?;
    let [how_often, text @ ..] = input.as_slice() else {
        return Ok(());
    };
    let times = if *how_often == b'1' { 2001 } else { 1 };
    let mut list = vec![in rt.alloc(); Entry::default(); MOST_NODES]?;
    let nodes = open_often(text, &mut list, times).unwrap_or(0);
    println!(rt; "{nodes}")?;
    Ok(())
}
