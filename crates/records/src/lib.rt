// Records: five questions that can be put to any list of nodes, wherever it comes from.
#![tactic(auto)]

mod limits;
mod record;
mod totals;

pub use limits::{MOST_LEVELS, MOST_NODES};
pub use record::Record;
pub use totals::total;
