// The grammar of form texts, as definitions and theorems: what rule texts and start texts say.
#![tactic(auto)]

mod laws;

pub use laws::{one_meaning, parser_rule, texts_rule, worked_depth, worked_sets, worked_texts};
