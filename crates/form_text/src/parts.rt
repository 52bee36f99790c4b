// Reads rules and starts from the tokens of a whole text.
ghost use Rattle.std.specs.Prelude.{◌≡◌};
ghost use Rattle.form_grammar.specs.Parser.{body_of, branch_of, content_of, rule_of_pieces};
ghost use Rattle.form_text.specs.Reads.{IfRead, body_read, rule_read, start_read};
ghost use Rattle.pieces.specs.Tokens.{pieces_of};

use crate::content::content;
use crate::errors::Unread;
use crate::rule::{Body, Rule};
use contents::Expression;
use lexical::Word;
use pieces::{Sign, Token};
use std::alloc::Global;

// A content and the bracket that closes it, with nothing behind it.
fn branch(heap: Global, tokens: &[Token]) -> Result<Body, Unread>
    ensures { IfRead result (λ o. body_read o ≡ branch_of (pieces_of tokens.now)) }
{
    let (content, behind) = content(heap, tokens)?;
    let [Token::Sign(Sign::CloseRound)] = behind else {
        return Err(Unread::NotOfForm);
    };
    Ok(Body::Branch(content))
}

// What stands behind a rule's name: a content in round brackets, or two numbers in square ones.
fn body(heap: Global, tokens: &[Token]) -> Result<Body, Unread>
    ensures { IfRead result (λ o. body_read o ≡ body_of (pieces_of tokens.now)) }
{
    match tokens {
        [Token::Sign(Sign::OpenRound), inside @ ..] => branch(heap, inside),
        [
            Token::Sign(Sign::OpenSquare),
            Token::Number(low),
            Token::Sign(Sign::Comma),
            Token::Number(high),
            Token::Sign(Sign::CloseSquare),
        ] => Ok(Body::Leaf {
            low: *low,
            high: *high,
        }),
        _ => Err(Unread::NotOfForm),
    }
}

// The rule that the tokens are.
pub(crate) fn rule_of(heap: Global, tokens: &[Token]) -> Result<Rule, Unread>
    ensures { IfRead result (λ o. rule_read o ≡ rule_of_pieces (pieces_of tokens.now)) }
{
    let [
        Token::Word(variable),
        Token::Sign(Sign::Equals),
        Token::Word(name),
        behind @ ..,
    ] = tokens
    else {
        return Err(Unread::NotOfForm);
    };
    let body = body(heap, behind)?;
    Ok(Rule {
        variable: *variable,
        name: *name,
        body,
    })
}

// The content that the tokens are.
pub(crate) fn start_of(heap: Global, tokens: &[Token]) -> Result<Expression<Word>, Unread>
    ensures { IfRead result (λ o. start_read o ≡ content_of (pieces_of tokens.now)) }
{
    let (content, []) = content(heap, tokens)? else {
        return Err(Unread::NotOfForm);
    };
    Ok(content)
}
