// Runs: the pieces that go on over several bytes.
ghost use Rattle.std.specs.Prelude.{◌≡◌};
ghost use Rattle.pieces.specs.Cutting.{carries, run_piece};
ghost use Rattle.pieces.specs.Tokens.{piece};

use crate::token::Token;
use lexical::{Kind, Word, number};

// The two that there are. (An enum: the definitions of pieces are by it, and in its place a closure for the kinds and one for the token
// would have to go through each call together.)
#[derive(Clone, Copy)]
pub enum Run {
    Word,
    Number,
}

impl Run {
    // Whether a byte of a kind carries the run on.
    pub fn goes_on(self, kind: Kind) -> bool
        ensures { result ≡ carries self kind }
    {
        match self {
            Run::Word => kind.continues_word(),
            Run::Number => kind.in_number(),
        }
    }

    // The token of the whole run.
    pub fn token(self, bytes: &[u8]) -> Token
        ensures { piece result ≡ run_piece self bytes.now }
    {
        match self {
            Run::Word => Word::new(bytes).map_or(Token::Unfit, Token::Word),
            Run::Number => number(bytes).map_or(Token::Unfit, Token::Number),
        }
    }
}
