// The open elements, and what each item does to them.
ghost use Rattle.std.specs.Prelude.{◌≡◌};
ghost use Rattle.lent.specs.Stacks.{room};
ghost use Rattle.records.specs.Limits.{most_levels};

mod moves;

use crate::entry::Entry;
use lent::Stack;

// An opening tag whose closing tag is to come: its name, where it stands, and which node it begins.
#[derive(Clone, Copy, Default)]
pub struct OpenTag<'t> {
    pub name: &'t [u8],
    pub place: usize,
    pub node: usize,
}

// What the innermost element holds so far.
#[derive(Clone, Copy)]
pub enum Held {
    Blanks,
    Elements,
    Value(i32),
}

// What the items before have left open: how many nodes have begun, what the innermost element holds so far, and the open tags.
#[derive(Drop)]
pub struct Nest<'t, 's> {
    pub nodes: usize,
    pub held: Held,
    pub tags: Stack<'s, OpenTag<'t>>,
    // there is room for as many open tags as may lie in one another
    ghost ready: { room tags ≡ most_levels },
}

// A node that is complete: its number and its entry.
pub type Done = (usize, Entry);
