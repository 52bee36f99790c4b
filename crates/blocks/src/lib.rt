// Gate blocks: a record as bytes, asked in place.
#![tactic(auto)]

mod block;
mod bytes;
mod laws;
mod layout;
mod plan;
mod row;

pub use block::BlockRecord;
pub use laws::block_rule;
pub use layout::{GREATEST_THOUSANDTHS, MOST_BLOCK, MOST_NAMES, NODE_BYTES};
