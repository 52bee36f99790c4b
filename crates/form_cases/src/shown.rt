// Expressions as they are printed.

use contents::Expression;
use lexical::Word;
use std::alloc::AllocError;

// What an expression is over: variables, or numbers of occurrences.
pub trait Shown {
    fn push_to(&self, out: &mut Vec<u8>) -> Result<(), AllocError>;
}

impl Shown for Word {
    fn push_to(&self, out: &mut Vec<u8>) -> Result<(), AllocError> {
        out.extend_from_slice(self.as_bytes())
    }
}

impl Shown for u16 {
    fn push_to(&self, out: &mut Vec<u8>) -> Result<(), AllocError> {
        let digits = format!(in *out.allocator(); "{self}")?;
        out.extend_from_slice(digits.as_bytes())
    }
}

// What stands before the parts of an expression. The empty one is `empty()`, since a variable may be named `empty`.
fn opening<V>(expression: &Expression<V>) -> &'static [u8] {
    match expression {
        Expression::Empty => b"empty(",
        Expression::Item(_) => b"",
        Expression::Sequence(_, _) => b"seq(",
        Expression::Choice(_, _) => b"alt(",
        Expression::Star(_) => b"star(",
        Expression::Plus(_) => b"plus(",
        Expression::Optional(_) => b"opt(",
    }
}

// Adds an expression.
pub fn push_expression<V: Shown>(
    out: &mut Vec<u8>,
    expression: &Expression<V>,
) -> Result<(), AllocError> {
    out.extend_from_slice(opening(expression))?;
    match expression {
        Expression::Empty => {}
        Expression::Item(item) => return item.push_to(out),
        Expression::Sequence(a, b) | Expression::Choice(a, b) => {
            push_expression(out, a)?;
            out.extend_from_slice(b", ")?;
            push_expression(out, b)?;
        }
        Expression::Star(a) | Expression::Plus(a) | Expression::Optional(a) => {
            push_expression(out, a)?;
        }
    }
    out.extend_from_slice(b")")
}

// Adds the items of an expression, from left to right.
pub fn collect_items(items: &mut Vec<u16>, expression: &Expression<u16>) -> Result<(), AllocError> {
    match expression {
        Expression::Empty => Ok(()),
        Expression::Item(p) => Ok(items.push(*p)?),
        Expression::Sequence(a, b) | Expression::Choice(a, b) => {
            collect_items(items, a)?;
            collect_items(items, b)
        }
        Expression::Star(a) | Expression::Plus(a) | Expression::Optional(a) => {
            collect_items(items, a)
        }
    }
}
