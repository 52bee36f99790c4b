// Reads rule texts and start texts.
ghost use Rattle.std.specs.Prelude.{◌≡◌, ◌<◌, ◌≤◌, length, MatchOption};
ghost use Rattle.form_grammar.specs.Grammar.{longest};
ghost use Rattle.form_text.specs.Answers.{ReadsRule, ReadsStart};
ghost use Rattle.form_text.specs.Reads.{IfRead};
ghost use Rattle.pieces.specs.Cutting.{pieces};
ghost use Rattle.pieces.specs.Tokens.{pieces_of};

use crate::errors::{RuleError, StartError, Unread};
use crate::parts::{rule_of, start_of};
use crate::rule::Rule;
use contents::Expression;
use lexical::Word;
use pieces::{Token, cut};
use std::alloc::Global;

// The most bytes that a text has.
pub const LONGEST_TEXT: usize = 512;

// The tokens of a text, unless it is too long.
fn tokens_of(heap: Global, text: &[u8]) -> Result<Vec<Token>, Unread>
    ensures { IfRead result (λ o. MatchOption o (longest < length text.now) (λ v. (length text.now ≤ longest) × (pieces_of v.items ≡ pieces text.now))) }
{
    if text.len() > LONGEST_TEXT {
        return Err(Unread::NotOfForm);
    }
    Ok(cut(heap, text)?)
}

// The rule that a rule text says.
#[tactic(auto, using(crate::proofs::Finding::said_rule))]
pub fn read_rule(heap: Global, text: &[u8]) -> Result<Rule, RuleError>
    ensures { ReadsRule text.now result }
{
    let tokens = tokens_of(heap, text)?;
    let rule = rule_of(heap, &tokens)?;
    if rule.body.low_above_high() {
        return Err(RuleError::LowAboveHigh);
    }
    Ok(rule)
}

// The content that a start text says.
#[tactic(auto, using(crate::proofs::Finding::said_start))]
pub fn read_start(heap: Global, text: &[u8]) -> Result<Expression<Word>, StartError>
    ensures { ReadsStart text.now result }
{
    let tokens = tokens_of(heap, text)?;
    Ok(start_of(heap, &tokens)?)
}
