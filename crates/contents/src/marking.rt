// Marking: each place of a variable is replaced by its occurrence number, counted on from a base, from left to right.
ghost use Rattle.std.specs.Prelude.{◌≡◌, ◌≤◌};
ghost use Rattle.contents.specs.Marking.{most_occurrences};
ghost use Rattle.contents.specs.Marked.{Marks, Numbers};
ghost use Rattle.contents.specs.declared.marking.Unmarked.TheVariants.{NoMemory};

use crate::expression::Expression;
use std::alloc::{AllocError, Global};

// The most occurrences that a form has; their numbers lie below it.
pub const MOST_OCCURRENCES: u16 = 256;

// Why a content is not marked: there would be more than `MOST_OCCURRENCES`, or memory is wanting.
#[derive(Clone, Copy, Debug, PartialEq, Eq)]
pub enum Unmarked {
    TooMany,
    NoMemory,
}

// (By hand, since the contract says which error it makes; a derived one has none.)
impl From<AllocError> for Unmarked {
    ghost from_gives = { λ _ r. r ≡ NoMemory };

    fn from(_error: AllocError) -> Unmarked {
        Unmarked::NoMemory
    }
}

impl<V> Expression<V> {
    // This expression with a number in place of each item, from left to right: the first gets `next`, each other the number after the one
    // before it. Afterwards `next` is the first number that no item got.
    fn numbered(&self, heap: Global, next: &mut u16) -> Result<Expression<u16>, Unmarked>
        requires { next.old ≤ most_occurrences }
        ensures { Numbers self.now next.old result next.new }
    {
        match self {
            Expression::Empty => Ok(Expression::Empty),
            Expression::Item(_) => {
                let number = *next;
                if number >= MOST_OCCURRENCES {
                    return Err(Unmarked::TooMany);
                }
                *next = number + 1;
                Ok(Expression::Item(number))
            }
            Expression::Sequence(a, b) => {
                let first = a.numbered(heap, next)?;
                Ok(first.then(heap, b.numbered(heap, next)?)?)
            }
            Expression::Choice(a, b) => {
                let first = a.numbered(heap, next)?;
                Ok(first.or(heap, b.numbered(heap, next)?)?)
            }
            Expression::Star(a) => Ok(a.numbered(heap, next)?.repeated(heap)?),
            Expression::Plus(a) => Ok(a.numbered(heap, next)?.repeated_once(heap)?),
            Expression::Optional(a) => Ok(a.numbered(heap, next)?.omitted(heap)?),
        }
    }

    // The marked content, its occurrences numbered from `base` on.
    pub fn mark(&self, heap: Global, base: u16) -> Result<Expression<u16>, Unmarked>
        ensures { Marks self.now base result }
    {
        if base > MOST_OCCURRENCES {
            return Err(Unmarked::TooMany);
        }
        let mut next = base;
        self.numbered(heap, &mut next)
    }
}
