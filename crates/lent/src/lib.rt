// What works on memory that a caller lends.
#![tactic(auto)]

mod stack;

pub use stack::Stack;
