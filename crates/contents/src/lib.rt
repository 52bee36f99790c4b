// Contents: the expressions by which forms say which children a branch has, the sets of Berry and Sethi, and marking.
#![tactic(auto)]

mod building;
mod expression;
mod laws;
mod marking;
mod queries;

pub use expression::Expression;
pub use laws::{has_words, local_rule, marking_rule, sets_rule};
pub use marking::{MOST_OCCURRENCES, Unmarked};
