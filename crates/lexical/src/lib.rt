// The lexical layer: kinds of bytes, words, and numbers in hundredths.
#![tactic(auto)]

mod kinds;
mod laws;
mod numbers;
mod parts;
mod rounding;
mod spelled;
mod words;

pub use kinds::{Kind, is_greater, is_slash, kind_of};
pub use laws::{number_rule, rounding_rule, worked_numbers};
pub use numbers::number;
pub use parts::{after, part};
pub use rounding::hundredths;
pub use spelled::Word;
pub use words::{LONGEST_WORD, is_word};
