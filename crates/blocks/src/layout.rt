// The numbers of the layout of blocks.
use lexical::LONGEST_WORD;
use records::MOST_NODES;

// The most names that a block has.
pub const MOST_NAMES: usize = 64;

// The bytes of a node: the number of its name, its depth, its kind, and four for its value.
pub const NODE_BYTES: usize = 7;

// The most bytes of a block that is taken: two counts, and the longest names and the nodes.
pub const MOST_BLOCK: usize = 4 + MOST_NAMES * (1 + LONGEST_WORD) + MOST_NODES * NODE_BYTES;

// The greatest value in thousandths, and without its sign the least one.
pub const GREATEST_THOUSANDTHS: u32 = 99_999_999;

// The kind of a branch, and of a leaf.
pub const BRANCH: u8 = 0;

pub const LEAF: u8 = 1;
