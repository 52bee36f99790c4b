// Prints the nodes of the record on standard input, or why it is none. The arguments, in any order, say what to print:
//   block      the input is a gate block, not record text
//   cut N      only node N of the record and what lies beneath it
//   hide NAME  of what is shown, no nodes of that name and nothing beneath them
//   total      the sum of the values that are shown, too
#![tactic(auto)]

mod command;

use blocks::MOST_BLOCK;
use command::Command;
use refusals::Refusal;
use reports::{MOST_INPUT, outline, outline_block, outline_text, refused};
use std::alloc::{AllocError, Global};
use std::io::{Read, Write};
use std::{env, io};

fn report(heap: Global, input: &[u8], command: &Command) -> Result<Vec<u8>, AllocError> {
    if command.block {
        outline_block(heap, input, command.asked())
    } else if command.is_plain() {
        outline(heap, input)
    } else {
        outline_text(heap, input, command.asked())
    }
}

fn main(rt: HostRuntime) -> io::Result<()> {
    let heap = rt.alloc();
    let Some(command) = Command::read(env::args(&rt)?) else {
        let report = refused(heap, Refusal::Input)?;
        return rt.stdout().write_all(&report);
    };
    let mut input = Vec::new(heap);
    // One byte more than an input may have is enough to tell that it is too long.
    rt.stdin()
        .take(MOST_INPUT.max(MOST_BLOCK) as u64 + 1)
        .read_to_end(&mut input)?;
    let report = report(heap, &input, &command)?;
    rt.stdout().write_all(&report)
}
