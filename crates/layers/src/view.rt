// A view of the record below: some of its nodes, at their depths or lower ones.
ghost use Rattle.std.specs.Prelude.{◌≡◌, slice_index_or};
ghost use Rattle.layers.specs.Views.{Seen, entry_of, raised, view_level, view_nodes, view_places};
ghost use Rattle.records.specs.Nodes.{Shape, no_node};

use records::Record;

mod cut;
mod hide;

// A node that is shown: its number below, and its depth here.
#[derive(Clone, Copy)]
pub struct Shown {
    pub at: usize,
    pub depth: usize,
}

// The nodes of the record below that are shown.
#[derive(Drop)]
pub struct View<'r, R: Record> {
    below: &'r R,
    shown: Vec<Shown>,
    ghost in_shape: { Shape (view_nodes (R.nodes below.now) shown.items) },
}

// Node n, shown `base` higher up.
fn raise<R: Record>(below: &R, n: usize, base: usize) -> Shown
    ensures { result ≡ raised base (entry_of n (slice_index_or (R.nodes below.now) n no_node)) }
{
    Shown {
        at: n,
        depth: below.depth(n).saturating_sub(base),
    }
}

impl<'r, R: Record> View<'r, R> {
    // Node n, if there is one.
    fn seen(&self, n: usize) -> Option<Shown>
        ensures { Seen (R.nodes self.now.below.now) (R.places self.now.below.now) self.now.shown.items n result }
    {
        self.shown.get(n).copied()
    }
}

impl<'r, R: Record> Record for View<'r, R> {
    ghost nodes = { λ v. view_nodes (R.nodes v.below.now) v.shown.items };

    ghost places = { λ v. view_places (R.places v.below.now) v.shown.items };

    ghost shape = { λ v. v.in_shape };

    ghost placed = { λ v. view_level (R.nodes v.below.now) v.shown.items (R.places v.below.now) };

    fn count(&self) -> usize {
        self.shown.len()
    }

    fn depth(&self, n: usize) -> usize {
        self.seen(n).map_or(0, |node| node.depth)
    }

    fn value(&self, n: usize) -> Option<i32> {
        self.below.value(self.seen(n)?.at)
    }

    fn place(&self, n: usize) -> usize {
        self.seen(n).map_or(0, |node| self.below.place(node.at))
    }

    fn is_named(&self, n: usize, name: &[u8]) -> bool {
        self.seen(n)
            .is_some_and(|node| self.below.is_named(node.at, name))
    }
}
