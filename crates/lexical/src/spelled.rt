// Words that a value owns, for what outlives the text that they were read from.
ghost use Rattle.std.specs.Prelude.{◌≡◌, ◌≤◌, length, take};
ghost use Rattle.lexical.specs.Words.{longest_word};
ghost use Rattle.lexical.specs.Spellings.{Spells, spelling};

use crate::parts::part;
use crate::words::{LONGEST_WORD, is_word};

// A word: its bytes, and zeros behind them. (An array with a length beside it: a word is made without the heap, so that making one
// cannot fail, and is copied. An `ArrayString` would do both, but takes text and no bytes. And no ghost field says that the length
// fits: with one, patterns over tokens that hold words get no proof.)
#[derive(Clone, Copy)]
pub struct Word {
    bytes: [u8; LONGEST_WORD],
    len: u8,
}

// The bytes with zeros behind them.
fn padded(bytes: &[u8]) -> [u8; LONGEST_WORD]
    requires { length bytes.now ≤ longest_word }
    ensures { take (length bytes.now) result ≡ bytes.now }
{
    let mut padded = [0; LONGEST_WORD];
    padded[..bytes.len()].copy_from_slice(bytes);
    padded
}

impl Word {
    // The word that the bytes are, or none.
    pub fn new(bytes: &[u8]) -> Option<Word>
        ensures { Spells bytes.now result }
    {
        if !is_word(bytes) {
            return None;
        }
        Some(Word {
            bytes: padded(bytes),
            len: bytes.len() as u8,
        })
    }

    // The bytes of the word.
    pub fn as_bytes(&self) -> &[u8]
        ensures { result.now ≡ spelling self.now }
    {
        part(&self.bytes, 0, usize::from(self.len))
    }
}
