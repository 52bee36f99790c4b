// Hide: leaves out every node of one name, with all beneath it.
ghost use Rattle.std.specs.Prelude.{◌≡◌, ◌<◌, IfOk, length, slice_index_or};
ghost use Rattle.layers.specs.Layers.{Hides, hidden_by, without};
ghost use Rattle.layers.specs.Views.{entries};
ghost use Rattle.records.specs.Nodes.{no_node};

use super::{Shown, View, raise};
use records::Record;
use std::alloc::{AllocError, Global};

// The depth of the hidden node that node n is or lies beneath, where `top` is that of the node before; none where n is shown.
fn hidden_by<R: Record>(below: &R, n: usize, name: &[u8], top: Option<usize>) -> Option<usize>
    requires { n < length (R.nodes below.now) }
    ensures { result ≡ hidden_by name.now top (slice_index_or (R.nodes below.now) n no_node) }
{
    let depth = below.depth(n);
    top.filter(|top| depth > *top)
        .or_else(|| below.is_named(n, name).then_some(depth))
}

// The nodes that are left.
fn kept<R: Record>(heap: Global, below: &R, name: &[u8]) -> Result<Vec<Shown>, AllocError>
    ensures { IfOk result (λ v. v.items ≡ without name.now (R.nodes below.now) (entries 0 (R.nodes below.now))) }
{
    let mut shown = Vec::new(heap);
    let mut top = None;
    // A chain with `scan` and `filter_map` would be no plainer, since it hides `top` in the state of a closure.
    for n in 0..below.count() {
        top = hidden_by(below, n, name, top);
        if top.is_none() {
            shown.push(raise(below, n, 0))?;
        }
    }
    Ok(shown)
}

impl<'r, R: Record> View<'r, R> {
    // Leaves out every node of the name, with all beneath it. A name that is no word hides nothing, since no node has it.
    pub fn hide(heap: Global, below: &'r R, name: &[u8]) -> Result<View<'r, R>, AllocError>
        ensures { IfOk result (λ v. Hides name.now (R.nodes below.now) (R.places below.now) (⟦<View<'r, R> as Record>⟧.nodes v) (⟦<View<'r, R> as Record>⟧.places v)) }
    {
        let shown = kept(heap, below, name)?;
        Ok(View { below, shown })
    }
}
