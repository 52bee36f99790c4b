// Reads contents by recursive descent. Each function reads one kind of part from the tokens, and answers its expression with the tokens
// behind it, or that they are not of the form where no such part stands first.
ghost use Rattle.std.specs.Prelude.{◌≡◌, ◌<◌, length, IfSome};
ghost use Rattle.pieces.specs.Tokens.{byte, pieces_of};
ghost use Rattle.form_grammar.specs.Grammar.{a_choice, a_sequence, an_atom, an_item};
ghost use Rattle.form_grammar.specs.Parser.{begins, content, past};
ghost use Rattle.form_text.specs.Reads.{IfRead, Parses, left, read_as, written};

use crate::errors::Unread;
use contents::Expression;
use lexical::Word;
use pieces::{Sign, Token};
use std::alloc::Global;

// The most brackets inside one another.
const DEEPEST: usize = 16;

// What was read, and the tokens behind it. (No parser that holds them and has these functions as methods: each contract would have to
// speak of its tokens before and after, and of what is left of them where a part is not read.)
pub(crate) type Parsed<'t> = Result<(Expression<Word>, &'t [Token]), Unread>;

// The tokens behind a sign, if it stands first.
fn past(tokens: &[Token], sign: Sign) -> Option<&[Token]>
    ensures value { left result ≡ past (byte sign) (pieces_of tokens.now) }
    ensures onward { IfSome result (λ rest. length rest.now < length tokens.now) }
{
    match tokens {
        [Token::Sign(found), rest @ ..] if *found == sign => Some(rest),
        _ => None,
    }
}

// One sequence or more, joined by `|`.
#[cycle(atom_choice_item_sequence)]
fn choice(heap: Global, tokens: &[Token], depth: usize) -> Parsed<'_>
    ensures { IfRead result (λ o. Parses a_choice depth tokens.now o) }
{
    let (first, behind) = sequence(heap, tokens, depth)?;
    let Some(more) = past(behind, Sign::Bar) else {
        return Ok((first, behind));
    };
    let (other, end) = choice(heap, more, depth)?;
    Ok((first.or(heap, other)?, end))
}

// One item or more, joined by `,`. (`choice` with another part, sign and join: one function for both would take these three as closures,
// and its contract would have to repeat what each of them promises.)
#[cycle(atom_choice_item_sequence)]
fn sequence(heap: Global, tokens: &[Token], depth: usize) -> Parsed<'_>
    ensures { IfRead result (λ o. Parses a_sequence depth tokens.now o) }
{
    let (first, behind) = item(heap, tokens, depth)?;
    let Some(more) = past(behind, Sign::Comma) else {
        return Ok((first, behind));
    };
    let (next, end) = sequence(heap, more, depth)?;
    Ok((first.then(heap, next)?, end))
}

// An atom, and at most one of `*`, `+`, `?` behind it.
#[cycle(atom_choice_item_sequence)]
fn item(heap: Global, tokens: &[Token], depth: usize) -> Parsed<'_>
    ensures { IfRead result (λ o. Parses an_item depth tokens.now o) }
{
    let (atom, behind) = atom(heap, tokens, depth)?;
    match behind {
        [Token::Sign(Sign::Asterisk), end @ ..] => Ok((atom.repeated(heap)?, end)),
        [Token::Sign(Sign::Cross), end @ ..] => Ok((atom.repeated_once(heap)?, end)),
        [Token::Sign(Sign::Question), end @ ..] => Ok((atom.omitted(heap)?, end)),
        _ => Ok((atom, behind)),
    }
}

// A variable, or a choice in brackets, which may stand inside one another as deep as `depth` says.
#[cycle(atom_choice_item_sequence)]
fn atom(heap: Global, tokens: &[Token], depth: usize) -> Parsed<'_>
    ensures { IfRead result (λ o. Parses an_atom depth tokens.now o) }
{
    match tokens {
        [Token::Word(variable), behind @ ..] => Ok((Expression::Item(*variable), behind)),
        [Token::Sign(Sign::OpenRound), inside @ ..] if depth > 0 => {
            let (inner, behind) = choice(heap, inside, depth - 1)?;
            let Some(end) = past(behind, Sign::CloseRound) else {
                return Err(Unread::NotOfForm);
            };
            Ok((inner, end))
        }
        _ => Err(Unread::NotOfForm),
    }
}

// Whether an atom, and so a choice, stands first.
fn begins(tokens: &[Token]) -> bool
    ensures { result ≡ begins (pieces_of tokens.now) }
{
    matches!(tokens, [Token::Word(_) | Token::Sign(Sign::OpenRound), ..])
}

// A content: nothing, or a choice.
pub(crate) fn content(heap: Global, tokens: &[Token]) -> Parsed<'_>
    ensures { IfRead result (λ o. read_as written o ≡ content (pieces_of tokens.now)) }
{
    if !begins(tokens) {
        return Ok((Expression::Empty, tokens));
    }
    choice(heap, tokens, DEEPEST)
}
