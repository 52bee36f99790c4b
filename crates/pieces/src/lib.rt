// Form texts cut into pieces: words, numbers and signs, between blanks.
#![tactic(auto)]

mod cutting;
mod laws;
mod run;
mod token;

pub use cutting::cut;
pub use laws::pieces_rule;
pub use token::{Sign, Token};
