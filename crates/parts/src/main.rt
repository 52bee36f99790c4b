// Lays the record text on standard input and prints the part of each node, and what `lay` answers to lists that are not the text's.
#![tactic(auto)]

use record_text::{Entry, TextRecord, first_part, open};
use records::{MOST_NODES, Record};
use std::alloc::Global;
use std::io::{Read, Write};

// Prints the place and the bytes of the part of each node, and of the one past the last.
fn show_parts(rt: &HostRuntime, text: &[u8], list: &[Entry]) -> anyhow::Result<()> {
    let mut record = TextRecord::empty();
    let _ = record.lay(text, list);
    // By number, since that is how a record is asked.
    for n in 0..=record.count() {
        let (part, place) = record.part(n);
        print!(rt; "{place} ")?;
        rt.stdout().write_all(part)?;
        println!(rt; "")?;
    }
    Ok(())
}

// Prints what comes of laying another text and list over the first: the refusal, and how many nodes there are afterwards.
fn show_second(
    rt: &HostRuntime,
    text: &[u8],
    list: &[Entry],
    other_text: &[u8],
    other_list: &[Entry],
) -> anyhow::Result<()> {
    let mut record = TextRecord::empty();
    let _ = record.lay(text, list);
    match record.lay(other_text, other_list) {
        Ok(()) => print!(rt; "laid")?,
        Err(refusal) => print!(rt; "{refusal}")?,
    }
    let count = record.count();
    println!(rt; ", {count} nodes")?;
    Ok(())
}

// The first part: the list is gone before it is printed.
fn first_alone(heap: Global, text: &[u8]) -> anyhow::Result<&[u8]> {
    let mut list = vec![in heap; Entry::default(); MOST_NODES]?;
    let _ = open(text, &mut list);
    Ok(first_part(text, &list))
}

fn main(rt: HostRuntime) -> anyhow::Result<()> {
    let heap = rt.alloc();
    let mut text = Vec::new(heap);
    rt.stdin().read_to_end(&mut text)?;
    let mut list = vec![in heap; Entry::default(); MOST_NODES]?;
    let good = match open(&text, &mut list) {
        Ok(nodes) => &list[..nodes],
        Err(_) => &[],
    };
    show_parts(&rt, &text, &list)?;
    let first = first_alone(heap, &text)?;
    rt.stdout().write_all(first)?;
    println!(rt; "")?;
    show_second(&rt, &text, good, b"", &[])?;
    show_second(&rt, &text, good, &text, &[])?;
    show_second(
        &rt,
        &text,
        good,
        &text,
        &good[..good.len().saturating_sub(1)],
    )?;
    show_second(&rt, &text, good, b"<a/>", good)?;
    show_second(&rt, &text, good, b"<a></b>", good)?;
    Ok(())
}
