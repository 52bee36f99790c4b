// Form texts: rules and starts, as forms' authors write them.
#![tactic(auto)]

mod content;
mod errors;
mod parts;
mod rule;
mod texts;

pub use errors::{RuleError, StartError};
pub use rule::{Body, Rule};
pub use texts::{LONGEST_TEXT, read_rule, read_start};
