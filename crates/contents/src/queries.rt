// The sets of Berry and Sethi of a marked content, by recursion over the nodes of its expression.
ghost use Rattle.std.specs.Prelude.{◌≡◌};
ghost use Rattle.contents.specs.Expressions.{content};
ghost use Rattle.contents.specs.Sets.{Closes, Follows, Nullable, Opens, Tells, closes as closes_of, follows as follows_of, nullable as nullable_of, opens as opens_of};

use crate::expression::Expression;

impl Expression<u16> {
    // Whether the empty word is a word.
    #[tactic(auto, using(crate::proofs::Told::told_nullable))]
    pub fn nullable(&self) -> bool
        ensures means { Tells result (Nullable (content self.now)) }
        ensures value { result ≡ nullable_of (content self.now) }
    {
        match self {
            Expression::Empty | Expression::Star(_) | Expression::Optional(_) => true,
            Expression::Item(_) => false,
            Expression::Sequence(a, b) => a.nullable() && b.nullable(),
            Expression::Choice(a, b) => a.nullable() || b.nullable(),
            Expression::Plus(a) => a.nullable(),
        }
    }

    // Whether some word begins with the occurrence `p`.
    #[tactic(auto, using(crate::proofs::Told::told_opens))]
    pub fn opens(&self, p: u16) -> bool
        ensures means { Tells result (Opens (content self.now) p) }
        ensures value { result ≡ opens_of (content self.now) p }
    {
        match self {
            Expression::Empty => false,
            Expression::Item(q) => *q == p,
            Expression::Sequence(a, b) => a.opens(p) || a.nullable() && b.opens(p),
            Expression::Choice(a, b) => a.opens(p) || b.opens(p),
            Expression::Star(a) | Expression::Plus(a) | Expression::Optional(a) => a.opens(p),
        }
    }

    // Whether some word ends with the occurrence `p`. (`opens` with the parts of a sequence the other way round: one function for both would
    // take a flag for that, and pass it on at each call.)
    #[tactic(auto, using(crate::proofs::Told::told_closes))]
    pub fn closes(&self, p: u16) -> bool
        ensures means { Tells result (Closes (content self.now) p) }
        ensures value { result ≡ closes_of (content self.now) p }
    {
        match self {
            Expression::Empty => false,
            Expression::Item(q) => *q == p,
            Expression::Sequence(a, b) => b.closes(p) || b.nullable() && a.closes(p),
            Expression::Choice(a, b) => a.closes(p) || b.closes(p),
            Expression::Star(a) | Expression::Plus(a) | Expression::Optional(a) => a.closes(p),
        }
    }

    // Whether some word has the occurrence `q` right after `p`.
    #[tactic(auto, using(crate::proofs::Told::told_follows))]
    pub fn follows(&self, p: u16, q: u16) -> bool
        ensures means { Tells result (Follows (content self.now) p q) }
        ensures value { result ≡ follows_of (content self.now) p q }
    {
        match self {
            Expression::Empty | Expression::Item(_) => false,
            Expression::Sequence(a, b) => {
                a.follows(p, q) || b.follows(p, q) || a.closes(p) && b.opens(q)
            }
            Expression::Choice(a, b) => a.follows(p, q) || b.follows(p, q),
            Expression::Star(a) | Expression::Plus(a) => {
                a.follows(p, q) || a.closes(p) && a.opens(q)
            }
            Expression::Optional(a) => a.follows(p, q),
        }
    }
}
