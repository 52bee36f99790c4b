// Reads cases from standard input, one a line, and prints what the readers of form texts answer, and what the sets of contents tell.
//   rule TEXT       `branch` or `leaf`, the variable, the name, and the content or the two values in hundredths
//   start TEXT      `start` and the content
//   sets BASE TEXT  `ok` and how many occurrences the content of the start text has, marked from BASE on; then the marked content with
//                   `nullable` or `-`; then a line an occurrence: its number, `opens` or `-`, `closes` or `-`, and what follows it
// Where there is no such answer, a line says why.
#![tactic(auto)]

mod shown;

use contents::{Expression, Unmarked};
use form_text::{Body, Rule, RuleError, StartError, read_rule, read_start};
use shown::{Shown, collect_items, push_expression};
use std::alloc::AllocError;
use std::io::{Read, Write};

fn push_rule(out: &mut Vec<u8>, rule: &Rule) -> Result<(), AllocError> {
    let kind = match rule.body {
        Body::Branch(_) => "branch ",
        Body::Leaf { .. } => "leaf ",
    };
    out.extend_from_slice(kind.as_bytes())?;
    rule.variable.push_to(out)?;
    out.extend_from_slice(b" ")?;
    rule.name.push_to(out)?;
    out.extend_from_slice(b" ")?;
    match &rule.body {
        Body::Branch(content) => push_expression(out, content),
        Body::Leaf { low, high } => {
            let values = format!(in *out.allocator(); "{low} {high}")?;
            out.extend_from_slice(values.as_bytes())
        }
    }
}

fn answer_rule(out: &mut Vec<u8>, text: &[u8]) -> Result<(), AllocError> {
    match read_rule(*out.allocator(), text) {
        Ok(rule) => push_rule(out, &rule)?,
        Err(RuleError::NotOfForm) => out.extend_from_slice(b"not of the form")?,
        Err(RuleError::LowAboveHigh) => out.extend_from_slice(b"low above high")?,
        Err(RuleError::NoMemory) => out.extend_from_slice(b"no memory")?,
    }
    out.extend_from_slice(b"\n")
}

fn push_start_error(out: &mut Vec<u8>, error: StartError) -> Result<(), AllocError> {
    match error {
        StartError::NotOfForm => out.extend_from_slice(b"not of the form\n"),
        StartError::NoMemory => out.extend_from_slice(b"no memory\n"),
    }
}

fn answer_start(out: &mut Vec<u8>, text: &[u8]) -> Result<(), AllocError> {
    match read_start(*out.allocator(), text) {
        Ok(content) => {
            out.extend_from_slice(b"start ")?;
            push_expression(out, &content)?;
            out.extend_from_slice(b"\n")
        }
        Err(error) => push_start_error(out, error),
    }
}

// Adds a word where something holds, and `-` where it does not.
fn push_if(out: &mut Vec<u8>, holds: bool, word: &[u8]) -> Result<(), AllocError> {
    out.extend_from_slice(b" ")?;
    out.extend_from_slice(if holds { word } else { b"-" })
}

// Adds the line of the occurrence p.
fn push_occurrence(
    out: &mut Vec<u8>,
    content: &Expression<u16>,
    items: &[u16],
    p: u16,
) -> Result<(), AllocError> {
    p.push_to(out)?;
    push_if(out, content.opens(p), b"opens")?;
    push_if(out, content.closes(p), b"closes")?;
    for q in items {
        if content.follows(p, *q) {
            out.extend_from_slice(b" ")?;
            q.push_to(out)?;
        }
    }
    out.extend_from_slice(b"\n")
}

fn push_sets(out: &mut Vec<u8>, content: &Expression<u16>) -> Result<(), AllocError> {
    let heap = *out.allocator();
    let mut items = Vec::new(heap);
    collect_items(&mut items, content)?;
    let count = items.len();
    let head = format!(in heap; "ok {count}\n")?;
    out.extend_from_slice(head.as_bytes())?;
    push_expression(out, content)?;
    push_if(out, content.nullable(), b"nullable")?;
    out.extend_from_slice(b"\n")?;
    for p in &items {
        push_occurrence(out, content, &items, *p)?;
    }
    Ok(())
}

fn answer_sets(out: &mut Vec<u8>, base: u16, text: &[u8]) -> Result<(), AllocError> {
    let heap = *out.allocator();
    let content = match read_start(heap, text) {
        Ok(content) => content,
        Err(error) => return push_start_error(out, error),
    };
    match content.mark(heap, base) {
        Ok(marked) => push_sets(out, &marked),
        Err(Unmarked::TooMany) => out.extend_from_slice(b"too many\n"),
        Err(Unmarked::NoMemory) => out.extend_from_slice(b"no memory\n"),
    }
}

// The number that the digits write, or the greatest that there is.
fn base_of(digits: &[u8]) -> u16 {
    let mut n: u16 = 0;
    for b in digits {
        n = n.saturating_mul(10).saturating_add(u16::from(b & 15));
    }
    n
}

// The first word of a line, and what stands behind the space after it.
fn split_word(line: &[u8]) -> (&[u8], &[u8]) {
    match line.iter().position(|b| *b == b' ') {
        Some(space) => (&line[..space], &line[space + 1..]),
        None => (line, &[]),
    }
}

fn answer(out: &mut Vec<u8>, line: &[u8]) -> Result<(), AllocError> {
    let (kind, rest) = split_word(line);
    match kind {
        b"rule" => answer_rule(out, rest),
        b"start" => answer_start(out, rest),
        b"sets" => {
            let (base, text) = split_word(rest);
            answer_sets(out, base_of(base), text)
        }
        _ => out.extend_from_slice(b"no case\n"),
    }
}

// Bytes after the last line's end are no case.
fn answer_all(out: &mut Vec<u8>, input: &[u8]) -> Result<(), AllocError> {
    for piece in input.split_inclusive(|b| *b == b'\n') {
        if let Some(line) = piece.strip_suffix(b"\n") {
            answer(out, line)?;
        }
    }
    Ok(())
}

fn main(rt: HostRuntime) -> anyhow::Result<()> {
    let mut input = Vec::new(rt.alloc());
    rt.stdin().read_to_end(&mut input)?;
    let mut answers = Vec::new(rt.alloc());
    answer_all(&mut answers, &input)?;
    rt.stdout().write_all(&answers)?;
    Ok(())
}
