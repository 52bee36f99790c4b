// The pieces of form texts, as the readers take them.
ghost use Rattle.std.specs.Prelude.{◌≡◌, MatchOption, false};
ghost use Rattle.pieces.specs.Pieces.{is_sign};
ghost use Rattle.pieces.specs.Tokens.{byte};

use lexical::Word;

// The signs, each by its byte.
#[derive(Clone, Copy, PartialEq, Eq)]
pub enum Sign {
    Equals = b'=' as isize,
    Bar = b'|' as isize,
    Comma = b',' as isize,
    Asterisk = b'*' as isize,
    Cross = b'+' as isize,
    Question = b'?' as isize,
    OpenRound = b'(' as isize,
    CloseRound = b')' as isize,
    OpenSquare = b'[' as isize,
    CloseSquare = b']' as isize,
}

// What fits nowhere, a word, a number in hundredths, or a sign. (A list of `Option<Token>` would write `Some` at each piece that a reader
// matches, and a piece that fits nowhere is a piece as the others are.)
#[derive(Clone, Copy)]
pub enum Token {
    Unfit,
    Word(Word),
    Number(i32),
    Sign(Sign),
}

// (No `TryFrom<u8>` and no `From<Sign> for u8`: an error type would say no more than `None`, and `byte` has the name of the definition that
// contracts use.)
impl Sign {
    // The sign that a byte is.
    pub(crate) fn from_byte(b: u8) -> Option<Sign>
        ensures { MatchOption result (is_sign b ≡ false) (λ s. byte s ≡ b) }
    {
        match b {
            b'=' => Some(Sign::Equals),
            b'|' => Some(Sign::Bar),
            b',' => Some(Sign::Comma),
            b'*' => Some(Sign::Asterisk),
            b'+' => Some(Sign::Cross),
            b'?' => Some(Sign::Question),
            b'(' => Some(Sign::OpenRound),
            b')' => Some(Sign::CloseRound),
            b'[' => Some(Sign::OpenSquare),
            b']' => Some(Sign::CloseSquare),
            _ => None,
        }
    }

    pub fn byte(self) -> u8
        ensures { result ≡ byte self }
    {
        self as u8
    }
}
