ghost use Rattle.std.specs.Prelude.{◌≡◌, []};
ghost use Rattle.record_text.specs.Laying.{Laid, Settled, entries_of, refusal_of, text_of};
ghost use Rattle.record_text.specs.Passing.{Agreed};
ghost use Rattle.record_text.specs.Parts.{part_of, place_of};

use super::TextRecord;
use crate::entry::Entry;
use crate::opening::compared;
use lexical::part;
use refusals::Refusal;

// The front of the list that has an entry for each node of the text.
fn agreed<'n>(text: &[u8], list: &'n [Entry]) -> Result<&'n [Entry], Refusal>
    ensures agreed { Agreed text.now list.now result }
    ensures settled { Settled text.now list.now (refusal_of result) }
{
    let nodes = compared(text, list)?;
    Ok(&list[..nodes])
}

// The part of the text that node n of the list takes up, and its place.
fn part_at<'t>(text: &'t [u8], list: &[Entry], n: usize) -> (&'t [u8], usize)
    ensures part { result.0.now ≡ part_of text.now list.now n }
    ensures place { result.1 ≡ place_of text.now list.now n }
{
    match list.get(n) {
        Some(entry) => {
            let len = entry.end.saturating_sub(entry.start);
            (part(text, entry.start, len), entry.start)
        }
        None => (&[], text.len()),
    }
}

impl<'t, 'n> TextRecord<'t, 'n> {
    // A record without nodes.
    pub fn empty() -> TextRecord<'t, 'n>
        ensures text { text_of result ≡ [] }
        ensures entries { entries_of result ≡ [] }
    {
        TextRecord {
            text: &[],
            nodes: &[],
        }
    }

    // Sets the record to a text and its list, or refuses and leaves the record as it was.
    pub fn lay(&mut self, text: &'t [u8], list: &'n [Entry]) -> Result<(), Refusal>
        ensures laid { Laid text.now list.now result self.old self.new }
        ensures settled { Settled text.now list.now (refusal_of result) }
    {
        let nodes = agreed(text, list)?;
        *self = TextRecord { text, nodes };
        Ok(())
    }

    // The part of the text that node n takes up, and its place; for a node that is not there, nothing at the text's end. The part
    // borrows the text, and not the list.
    pub fn part(&self, n: usize) -> (&'t [u8], usize)
        ensures part { result.0.now ≡ part_of (text_of self.now) (entries_of self.now) n }
        ensures place { result.1 ≡ place_of (text_of self.now) (entries_of self.now) n }
    {
        part_at(self.text, self.nodes, n)
    }
}
