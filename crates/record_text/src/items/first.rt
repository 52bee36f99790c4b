// The item that a text begins with.
ghost use Rattle.std.specs.Prelude.{◌≡◌, true, [], ◌∷◌, ◌==◌, MatchOption, slice_index};
ghost use Rattle.std.specs.List.{position};
ghost use Rattle.lexical.specs.Kinds.{kind};
ghost use Rattle.lexical.specs.Numbers.{figure_kind};
ghost use Rattle.record_text.specs.Cutting.{First, no_figure};

use super::Item;
use lexical::{Kind, is_greater, kind_of};

// Where the first byte stands that is none of numbers. (One call of the library, as is where a word ends in the reports and how long a
// run is in form texts: one function for the three would take the test as a closure, and hand it on to that call.)
fn first_other(text: &[u8]) -> Option<usize>
    ensures { result ≡ position no_figure text.now }
{
    text.iter().position(|b| !kind_of(*b).in_number())
}

// Where the first `>` stands.
fn first_greater(text: &[u8]) -> Option<usize>
    ensures { result ≡ position (λ b. b == 62) text.now }
{
    text.iter().position(|b| is_greater(*b))
}

// The number that the text begins with, and what is left then.
fn number(text: &[u8]) -> (Item<'_>, &[u8])
    ensures { figure_kind (kind (slice_index text.now 0)) ≡ true → First text.now result.0 result.1.now }
{
    let n = first_other(text).unwrap_or(text.len());
    (Item::Number(&text[..n]), &text[n..])
}

// What a `<` begins that stands before this text, and what is left then.
fn tag(text: &[u8]) -> (Item<'_>, &[u8])
    ensures { First (60 ∷ text.now) result.0 result.1.now }
{
    match first_greater(text) {
        Some(n) => (Item::Tag(&text[..n]), &text[n + 1..]),
        None => (Item::Lone, &[]),
    }
}

// The first item of the text and what is left then, unless the text is empty.
pub(super) fn first_item(text: &[u8]) -> Option<(Item<'_>, &[u8])>
    ensures { MatchOption result (text.now ≡ []) (λ x. First text.now x.0 x.1.now) }
{
    let [byte, rest @ ..] = text else {
        return None;
    };
    match kind_of(*byte) {
        Kind::Blank => Some((Item::Gap, rest)),
        Kind::Less => Some(tag(rest)),
        kind if kind.in_number() => Some(number(text)),
        _ => Some((Item::Stray, rest)),
    }
}
