// The limits of a record.

// The most nodes that a record has.
pub const MOST_NODES: usize = 4096;

// Depths 0 to 31: as many nodes may lie in one another.
pub const MOST_LEVELS: usize = 32;
