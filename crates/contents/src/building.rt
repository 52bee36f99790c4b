// Expressions made of smaller ones. Each takes memory for its parts. (One line each: a helper that boxes for all of them would take the
// variant as a closure, and leave as many lines.)
ghost use Rattle.std.specs.Prelude.{◌≡◌, IfOk};
ghost use Rattle.contents.specs.Contents.{seq, alt, star, plus, opt};
ghost use Rattle.contents.specs.Expressions.{content};

use crate::expression::Expression;
use std::alloc::{AllocError, Global};

impl<V: Drop> Expression<V> {
    // This, and then another.
    pub fn then(self, heap: Global, next: Expression<V>) -> Result<Expression<V>, AllocError>
        ensures { IfOk result (λ e. content e ≡ seq (content self) (content next)) }
    {
        Ok(Expression::Sequence(Box::new(heap, self)?, Box::new(heap, next)?))
    }

    // This or another.
    pub fn or(self, heap: Global, other: Expression<V>) -> Result<Expression<V>, AllocError>
        ensures { IfOk result (λ e. content e ≡ alt (content self) (content other)) }
    {
        Ok(Expression::Choice(Box::new(heap, self)?, Box::new(heap, other)?))
    }

    // This any number of times.
    pub fn repeated(self, heap: Global) -> Result<Expression<V>, AllocError>
        ensures { IfOk result (λ e. content e ≡ star (content self)) }
    {
        Ok(Expression::Star(Box::new(heap, self)?))
    }

    // This once or more.
    pub fn repeated_once(self, heap: Global) -> Result<Expression<V>, AllocError>
        ensures { IfOk result (λ e. content e ≡ plus (content self)) }
    {
        Ok(Expression::Plus(Box::new(heap, self)?))
    }

    // This once or not at all.
    pub fn omitted(self, heap: Global) -> Result<Expression<V>, AllocError>
        ensures { IfOk result (λ e. content e ≡ opt (content self)) }
    {
        Ok(Expression::Optional(Box::new(heap, self)?))
    }
}
