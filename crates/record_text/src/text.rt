// A text as a record: the text and the list of its nodes, each borrowed for a time of its own.
ghost use Rattle.std.specs.Prelude.{◌≡◌, ◌≤◌, true, length};
ghost use Rattle.record_text.specs.Pass.{accepts, entries, read};
ghost use Rattle.record_text.specs.Texts.{text_nodes};
ghost use Rattle.records.specs.Limits.{most_nodes};
ghost use Rattle.records.specs.Nodes.{shaped};

use crate::entry::Entry;

mod first;
mod ops;
mod questions;

pub use first::first_part;

// The text is accepted, and these are the entries of its nodes.
#[derive(Drop)]
pub struct TextRecord<'t, 'n> {
    text: &'t [u8],
    nodes: &'n [Entry],
    ghost fine: { accepts (read text.now) (length nodes.now) ≡ true },
    ghost same: { entries text.now nodes.now ≡ nodes.now },
    ghost few: { length nodes.now ≤ most_nodes },
    ghost shape: { shaped 0 (text_nodes text.now nodes.now) ≡ true },
}
