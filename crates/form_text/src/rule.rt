// Rules and starts, as they were read.
ghost use Rattle.form_text.specs.Answers.{TellsOrder};
ghost use Rattle.form_text.specs.Reads.{body_said};

use contents::Expression;
use lexical::Word;

// What a rule says of its variable: a node of the rule's name is a branch whose children the content allows, or a leaf whose value lies
// from `low` to `high`, both included, in hundredths.
#[derive(Drop)]
pub enum Body {
    Branch(Expression<Word>),
    Leaf { low: i32, high: i32 },
}

impl Body {
    // Whether a leaf rule's low value is above its high value.
    pub(crate) fn low_above_high(&self) -> bool
        ensures { TellsOrder result (body_said self.now) }
    {
        match self {
            Body::Branch(_) => false,
            Body::Leaf { low, high } => *low > *high,
        }
    }
}

#[derive(Drop)]
pub struct Rule {
    pub variable: Word,
    pub name: Word,
    pub body: Body,
}
