// Where things stand in a block.
ghost use Rattle.std.specs.Prelude.{◌≡◌, ℕ, ◌+◌, ◌<◌, ◌≤◌, true, false, [], None, MatchOption, length, slice_index, slice_index_or};
ghost use Rattle.records.specs.Limits.{most_nodes};
ghost use Rattle.blocks.specs.Layout.{most_names, node_bytes};
ghost use Rattle.blocks.specs.Places.{all_words, block_nodes, good_block, name_count, name_of, name_start, node_count, node_start};
ghost use Rattle.blocks.specs.Reading.{Named, room_of, row_at, row_of};

use super::bytes::{byte, name_at, number16};
use super::layout::{MOST_NAMES, NODE_BYTES};
use super::row::Row;
use lexical::is_word;
use records::MOST_NODES;

// A block whose names are words, and which has the length that its counts say: where each name starts, and the bytes of each node. The
// table is what lets every question be answered without a walk. It has room for the most names, since questions need no heap: a rule of
// the project. (An `ArrayVec` in its place proves as well, but each program above then checks that crate too, for minutes.)
#[derive(Drop)]
pub struct Plan<'b> {
    pub(crate) block: &'b [u8],
    names: u16,
    starts: [u16; MOST_NAMES],
    nodes: &'b [[u8; NODE_BYTES]],
    ghost named: { names ≡ name_count block.now },
    ghost few_names: { names ≤ most_names },
    ghost words: { all_words block.now (name_count block.now) ≡ true },
    ghost table: { (k : ℕ) → k < name_count block.now → slice_index starts k ≡ name_start block.now k },
    ghost counts: { length nodes.now ≡ node_count block.now },
    ghost few: { node_count block.now ≤ most_nodes },
    ghost whole: { length block.now ≡ node_start block.now (node_count block.now) },
    ghost rows: { (i : ℕ) → i < node_count block.now → row_of (slice_index_or nodes.now i []) ≡ row_at block.now (node_start block.now i) },
}

// Writes down where each name starts, and answers where the last one ends; none where a name is no word.
fn read_names(block: &[u8], starts: &mut [u16]) -> Option<u16>
    requires { length starts.old ≤ most_names }
    ensures { MatchOption result (all_words block.now (length starts.old) ≡ false) (λ end. Named block.now starts.new end) }
{
    // The names begin behind their count, which takes two bytes. A place is added up, since the table keeps places and not what is left.
    let mut at: u16 = 2;
    for start in starts.iter_mut() {
        if !is_word(name_at(block, at)) {
            return None;
        }
        *start = at;
        at += 1 + u16::from(byte(block, usize::from(at)));
    }
    Some(at)
}

// The greatest depth that may follow the node of these bytes; none where it does not fit, or lies deeper than `room`.
fn room_after(bytes: &[u8; NODE_BYTES], names: u16, room: u8) -> Option<u8>
    ensures { MatchOption (row_of bytes.now) (result ≡ None) (λ row. result ≡ room_of names room row) }
{
    Row::read(bytes)?.room_after(names, room)
}

impl<'b> Plan<'b> {
    // The plan of the block that counts no name and no node.
    pub(crate) fn empty() -> Plan<'b>
        ensures nodes { block_nodes result.block.now ≡ [] }
        ensures good { good_block result.block.now ≡ true }
    {
        Plan {
            block: &[0, 0, 0, 0],
            names: 0,
            starts: [0; MOST_NAMES],
            nodes: &[],
        }
    }

    // The plan of a block; none where the names or the length are not good.
    pub(crate) fn of(block: &'b [u8]) -> Option<Plan<'b>>
        ensures { MatchOption result (good_block block.now ≡ false) (λ p. p.block.now ≡ block.now) }
    {
        let names = number16(block, 0);
        if usize::from(names) > MOST_NAMES {
            return None;
        }
        let mut starts = [0; MOST_NAMES];
        let second = read_names(block, &mut starts[..usize::from(names)])?;
        let first = usize::from(second) + 2;
        let count = usize::from(number16(block, second));
        if count > MOST_NODES || block.len() != first + NODE_BYTES * count {
            return None;
        }
        let (nodes, _) = block[first..].as_chunks::<NODE_BYTES>();
        Some(Plan {
            block,
            names,
            starts,
            nodes,
        })
    }

    // How many nodes there are.
    pub(crate) fn count(&self) -> usize
        ensures { result ≡ node_count self.now.block.now }
    {
        self.nodes.len()
    }

    // The bytes of node i, if there is one.
    pub(crate) fn node(&self, i: usize) -> Option<&'b [u8; NODE_BYTES]>
        ensures { MatchOption result (node_count self.now.block.now ≤ i) (λ bytes. (i < node_count self.now.block.now) × (row_of bytes.now ≡ row_at self.now.block.now (node_start self.now.block.now i))) }
    {
        self.nodes.get(i)
    }

    // Whether the nodes fit, in the shape of records.
    pub(crate) fn is_good(&self) -> bool
        ensures { result ≡ good_block self.now.block.now }
    {
        let mut room = 0;
        for bytes in self.nodes {
            let Some(next) = room_after(bytes, self.names, room) else {
                return false;
            };
            room = next;
        }
        true
    }

    // Name k.
    pub(crate) fn name(&self, k: u8) -> &'b [u8]
        requires { k < name_count self.now.block.now }
        ensures { result.now ≡ name_of self.now.block.now k }
    {
        name_at(self.block, self.starts[usize::from(k)])
    }
}
