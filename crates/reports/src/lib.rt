// What the programs print, as bytes.
#![tactic(auto)]

mod laws;
mod listings;
mod outlines;
mod piles;
mod report;
mod rows;
mod sources;
mod standing;
mod values;

pub use laws::one_report;
pub use listings::{MOST_INPUT, refused};
pub use outlines::outline;
pub use piles::{Asked, list_asked};
pub use rows::{Names, list_record};
pub use sources::{outline_block, outline_text};
pub use standing::TextNames;
