// Cut: shows one node with all beneath it.
ghost use Rattle.std.specs.Prelude.{◌≡◌, IfOk};
ghost use Rattle.layers.specs.Layers.{Cuts};
ghost use Rattle.layers.specs.Views.{cut_entries};

use super::{Shown, View, raise};
use records::Record;
use std::alloc::{AllocError, Global};

// Node n and all beneath it, at depths from 0 on.
fn taken<R: Record>(heap: Global, below: &R, n: usize) -> Result<Vec<Shown>, AllocError>
    ensures { IfOk result (λ v. v.items ≡ cut_entries n (R.nodes below.now)) }
{
    let base = below.depth(n);
    (n..below.count())
        .take_while(|i| *i == n || below.depth(*i) > base)
        .map(|i| raise(below, i, base))
        .collect(heap)
}

impl<'r, R: Record> View<'r, R> {
    // Shows node n with all beneath it, depths lowered by that of n. Where there is no node n, it shows nothing.
    pub fn cut(heap: Global, below: &'r R, n: usize) -> Result<View<'r, R>, AllocError>
        ensures { IfOk result (λ v. Cuts n (R.nodes below.now) (R.places below.now) (⟦<View<'r, R> as Record>⟧.nodes v) (⟦<View<'r, R> as Record>⟧.places v)) }
    {
        let shown = taken(heap, below, n)?;
        Ok(View { below, shown })
    }
}
