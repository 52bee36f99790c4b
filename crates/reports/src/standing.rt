// The names that stand in texts and gate blocks.
ghost use Rattle.std.specs.Prelude.{◌≡◌, not, slice_index_or};
ghost use Rattle.std.specs.List.{position};
ghost use Rattle.lexical.specs.Kinds.{kind};
ghost use Rattle.lexical.specs.Words.{continues_word};
ghost use Rattle.blocks.specs.Places.{block_nodes};
ghost use Rattle.records.specs.Nodes.{no_node};
ghost use Rattle.reports.specs.Standing.{text_name, word_front};

use crate::rows::Names;
use blocks::BlockRecord;
use lexical::{after, kind_of};

// A text, as what its records' names are found in.
#[derive(Drop)]
pub struct TextNames<'t>(pub &'t [u8]);

// Where the first byte stands that belongs to no word.
fn word_end(bytes: &[u8]) -> Option<usize>
    ensures { result ≡ position (λ b. not (continues_word (kind b))) bytes.now }
{
    bytes.iter().position(|b| !kind_of(*b).continues_word())
}

// The bytes at the front that may belong to a word.
fn word_at(bytes: &[u8]) -> &[u8]
    ensures { result.now ≡ word_front bytes.now }
{
    match word_end(bytes) {
        Some(end) => &bytes[..end],
        None => bytes,
    }
}

impl<'t> Names for TextNames<'t> {
    ghost stands = { λ x p. text_name x.0.now p };

    fn name(&self, place: usize) -> &[u8] {
        word_at(after(self.0, place))
    }
}

impl<'b> Names for BlockRecord<'b> {
    ghost stands = { λ x p. (slice_index_or (block_nodes x.plan.block.now) p no_node).name };

    fn name(&self, place: usize) -> &[u8] {
        self.name_of(place)
    }
}
