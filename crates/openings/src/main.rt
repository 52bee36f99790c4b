// Reads cases from standard input and prints what `open` answers to each. A case is the length of the list to lend, one space, the
// text, and a byte 0. An accepted text is told by `ok`, the count, and a line a node: start, end, name length, depth, kind, value.
#![tactic(auto)]

use record_text::{Entry, open};
use std::io::Read;

// The longest list that a case may lend.
const LONGEST_LIST: usize = 5000;

fn show_nodes(rt: &HostRuntime, nodes: &[Entry]) -> anyhow::Result<()> {
    for node in nodes {
        let Entry {
            start,
            end,
            name_len,
            depth,
            value,
        } = *node;
        let kind = if value.is_some() { "leaf" } else { "branch" };
        let value = value.unwrap_or_default();
        println!(rt; "{start} {end} {name_len} {depth} {kind} {value}")?;
    }
    Ok(())
}

fn show(rt: &HostRuntime, text: &[u8], list: &mut [Entry]) -> anyhow::Result<()> {
    match open(text, list) {
        Ok(n) => {
            println!(rt; "ok {n}")?;
            show_nodes(rt, &list[..n])?;
        }
        Err(refusal) => println!(rt; "{refusal}")?,
    }
    Ok(())
}

// The number that the digits write, at most `LONGEST_LIST`, however many there are. (`parse` would refuse too many.)
fn list_length(digits: &[u8]) -> usize {
    let mut n: usize = 0;
    for b in digits {
        n = n.saturating_mul(10).saturating_add(usize::from(b & 15));
    }
    n.min(LONGEST_LIST)
}

// The length of the list to lend and the text; a case without a space lends nothing and has no text.
fn read_case(case: &[u8]) -> (usize, &[u8]) {
    match case.iter().position(|b| *b == b' ') {
        Some(space) => (list_length(&case[..space]), &case[space + 1..]),
        None => (0, &[]),
    }
}

fn answer(rt: &HostRuntime, case: &[u8], list: &mut [Entry]) -> anyhow::Result<()> {
    let (n, text) = read_case(case);
    match list.get_mut(..n) {
        Some(lent) => show(rt, text, lent),
        None => Ok(()),
    }
}

// Bytes after the last 0 are no case.
fn answer_all(rt: &HostRuntime, input: &[u8], list: &mut [Entry]) -> anyhow::Result<()> {
    for piece in input.split_inclusive(|b| *b == 0) {
        if let Some(case) = piece.strip_suffix(&[0]) {
            answer(rt, case, list)?;
        }
    }
    Ok(())
}

fn main(rt: HostRuntime) -> anyhow::Result<()> {
    let mut input = Vec::new(rt.alloc());
    rt.stdin().read_to_end(&mut input)?;
    let mut list = vec![in rt.alloc(); Entry::default(); LONGEST_LIST]?;
    answer_all(&rt, &input, &mut list)
}
