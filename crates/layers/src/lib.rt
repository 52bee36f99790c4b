// Layers that lie over any record, and are records again.
#![tactic(auto)]

mod laws;
mod view;

pub use laws::{
    cut_nothing, cut_whole, cutting_takes, hidden_and_kept, hidden_once, hiding_keeps,
    non_word_hides_nothing, one_selection,
};
pub use view::View;
