// Reads cases from standard input and prints what a gate block answers to each. A case is a line with the bytes of a block, two
// lowercase hexadecimal digits a byte. A refusal is told by `refused` and its number. An accepted block is told by `ok` and the
// count, then a line a node, and one for the node past the last: depth, place, value in hundredths or `-`, and the number of the
// first name that the record takes for the node's own, or 64 where it takes none.
#![tactic(auto)]

use blocks::{BlockRecord, MOST_NAMES};
use records::Record;
use std::alloc::{AllocError, Global};
use std::io::Read;

// The name whose length stands first, and the bytes behind it; nothing where they end before.
fn split_name(bytes: &[u8]) -> (&[u8], &[u8]) {
    match bytes {
        [len, rest @ ..] if usize::from(*len) <= rest.len() => rest.split_at(usize::from(*len)),
        _ => (&[], &[]),
    }
}

// The number of the first name that the record takes for node n's own.
fn first_name(record: &BlockRecord<'_>, block: &[u8], n: usize) -> Option<usize> {
    // The names begin behind their count, which takes two bytes.
    let mut names = block.get(2..).unwrap_or(&[]);
    for k in 0..MOST_NAMES {
        let (name, rest) = split_name(names);
        if record.is_named(n, name) {
            return Some(k);
        }
        names = rest;
    }
    None
}

fn show_node(
    rt: &HostRuntime,
    record: &BlockRecord<'_>,
    block: &[u8],
    n: usize,
) -> anyhow::Result<()> {
    let depth = record.depth(n);
    let place = record.place(n);
    let name = first_name(record, block, n).unwrap_or(MOST_NAMES);
    match record.value(n) {
        Some(value) => println!(rt; "{depth} {place} {value} {name}")?,
        None => println!(rt; "{depth} {place} - {name}")?,
    }
    Ok(())
}

fn answer(rt: &HostRuntime, block: &[u8]) -> anyhow::Result<()> {
    let mut record = BlockRecord::empty();
    match record.take(block) {
        Ok(()) => {
            let count = record.count();
            println!(rt; "ok {count}")?;
            // By number, since that is how a record is asked.
            for n in 0..=count {
                show_node(rt, &record, block, n)?;
            }
        }
        Err(refusal) => println!(rt; "{refusal}")?,
    }
    Ok(())
}

// The value of a hexadecimal digit; what another byte gives does not matter. (So no crate for hexadecimals, which would refuse it.)
fn digit(b: u8) -> u8 {
    match b {
        b'0'..=b'9' => b - b'0',
        b'a'..=b'f' => b - b'a' + 10,
        _ => 0,
    }
}

// The bytes that a line has digits for.
fn read_block(heap: Global, line: &[u8]) -> Result<Vec<u8>, AllocError> {
    let mut block = Vec::new(heap);
    for digits in line.chunks_exact(2) {
        block.push(digit(digits[0]) << 4 | digit(digits[1]))?;
    }
    Ok(block)
}

// Bytes after the last line's end are no case.
fn answer_all(rt: &HostRuntime, input: &[u8]) -> anyhow::Result<()> {
    for piece in input.split_inclusive(|b| *b == b'\n') {
        if let Some(line) = piece.strip_suffix(b"\n") {
            answer(rt, &read_block(rt.alloc(), line)?)?;
        }
    }
    Ok(())
}

fn main(rt: HostRuntime) -> anyhow::Result<()> {
    let mut input = Vec::new(rt.alloc());
    rt.stdin().read_to_end(&mut input)?;
    answer_all(&rt, &input)
}
