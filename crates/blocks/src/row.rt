// One node of a block, read from its bytes.
ghost use Rattle.std.specs.Prelude.{◌≡◌, IfSome};
ghost use Rattle.blocks.specs.Reading.{room_of, row_from, row_of};

use super::layout::{BRANCH, GREATEST_THOUSANDTHS, LEAF, NODE_BYTES};
use lexical::hundredths;
use records::MOST_LEVELS;

// The number of its name, its depth, and the value of a leaf in hundredths; a branch has none.
#[derive(Clone, Copy)]
pub struct Row {
    pub name: u8,
    pub depth: u8,
    pub value: Option<i32>,
}

// The number of a node's name, its depth, its kind, and its value in thousandths.
fn parts(bytes: &[u8; NODE_BYTES]) -> (u8, u8, u8, i32)
    ensures { row_of bytes.now ≡ row_from result.0 result.1 result.2 result.3 }
{
    let [name, depth, kind, a, b, c, d] = *bytes;
    (name, depth, kind, i32::from_le_bytes([a, b, c, d]))
}

impl Row {
    // What the bytes of a node say whose value fits its kind. It tests nothing: the nodes of a good block were tested when the block
    // was taken, so a question about one costs no more than the bytes that it needs.
    pub(crate) fn of(bytes: &[u8; NODE_BYTES]) -> Row
        ensures { IfSome (row_of bytes.now) (λ row. result ≡ row) }
    {
        let (name, depth, kind, thousandths) = parts(bytes);
        let value = (kind == LEAF).then(|| hundredths(thousandths));
        Row { name, depth, value }
    }

    // The node of these bytes; none where its value does not fit its kind.
    pub(crate) fn read(bytes: &[u8; NODE_BYTES]) -> Option<Row>
        ensures { result ≡ row_of bytes.now }
    {
        let (name, depth, kind, thousandths) = parts(bytes);
        let value = match kind {
            BRANCH if thousandths == 0 => None,
            LEAF if thousandths.unsigned_abs() <= GREATEST_THOUSANDTHS => {
                Some(hundredths(thousandths))
            }
            _ => return None,
        };
        Some(Row { name, depth, value })
    }

    // The greatest depth that may follow it: one more than a branch's, and a leaf's own. None where it has none of so many names, or
    // lies deeper than `room`.
    pub(crate) fn room_after(self, names: u16, room: u8) -> Option<u8>
        ensures { result ≡ room_of names room self }
    {
        if u16::from(self.name) >= names
            || self.depth > room
            || usize::from(self.depth) >= MOST_LEVELS
        {
            return None;
        }
        Some(self.value.map_or(self.depth + 1, |_| self.depth))
    }
}
