// Form texts cut into pieces, from left to right.
ghost use Rattle.std.specs.Prelude.{◌≡◌, ◌+◌, ◌≤◌, ◌∷◌, length, IfOk, MatchOption, [], Some};
ghost use Rattle.std.specs.List.{prefix_len};
ghost use Rattle.lexical.specs.Kinds.{kind};
ghost use Rattle.pieces.specs.Pieces.{sign_piece};
ghost use Rattle.pieces.specs.Spelling.{Spelled};
ghost use Rattle.pieces.specs.Cutting.{carries, front, run_piece, pieces_after, pieces};
ghost use Rattle.pieces.specs.Tokens.{piece, pieces_of};
ghost use Rattle.pieces.specs.Lexemes.{Leads, before};

use crate::run::Run;
use crate::token::{Sign, Token};
use lexical::{Kind, kind_of};
use std::alloc::{AllocError, Global};

// The token of a byte that is of no word or number.
fn sign(b: u8) -> Token
    ensures { piece result ≡ sign_piece b }
{
    Sign::from_byte(b).map_or(Token::Unfit, Token::Sign)
}

// How many bytes of a text carry a run on.
fn run_len(run: Run, text: &[u8]) -> usize
    ensures within { result ≤ length text.now }
    ensures value { result ≡ prefix_len (λ b. carries run (kind b)) text.now }
{
    text.iter()
        .take_while(|b| run.goes_on(kind_of(**b)))
        .count()
}

// The piece of the run that a text begins with, and the bytes behind it.
fn run_of(run: Run, text: &[u8]) -> (Option<Token>, &[u8])
    ensures whole { length (front run text.now) + length result.1.now ≡ length text.now }
    ensures same { before result.0 (pieces result.1.now) ≡ run_piece run (front run text.now) ∷ pieces_after (Some run) text.now }
{
    let len = run_len(run, text);
    (Some(run.token(&text[..len])), &text[len..])
}

// The piece that a text begins with, none for a blank, and the bytes behind it. Nothing at the end of the text.
fn lexeme(text: &[u8]) -> Option<(Option<Token>, &[u8])>
    ensures { MatchOption result (pieces text.now ≡ []) (λ r. Leads text.now r.0 r.1.now) }
{
    let (first, behind) = text.split_first()?;
    match kind_of(*first) {
        Kind::Letter => Some(run_of(Run::Word, text)),
        Kind::Digit | Kind::Hyphen | Kind::Point => Some(run_of(Run::Number, text)),
        Kind::Blank => Some((None, behind)),
        Kind::Less | Kind::Greater | Kind::Slash | Kind::Other => {
            Some((Some(sign(*first)), behind))
        }
    }
}

// The pieces of a text.
pub fn cut(heap: Global, text: &[u8]) -> Result<Vec<Token>, AllocError>
    ensures spelled { IfOk result (λ v. Spelled text.now (pieces_of v.items)) }
    ensures value { IfOk result (λ v. pieces_of v.items ≡ pieces text.now) }
{
    let mut tokens = Vec::new(heap);
    let mut rest = text;
    while let Some((token, behind)) = lexeme(rest) {
        if let Some(token) = token {
            tokens.push(token)?;
        }
        rest = behind;
    }
    Ok(tokens)
}
