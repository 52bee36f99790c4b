// The interface of records.
ghost use Rattle.std.specs.Prelude.{◌≡◌, ℕ, List, length, slice_index};
ghost use Rattle.records.specs.Nodes.{Node, Shape, depth_at, named_at, value_at};

// A list of nodes in document order, numbered from 0, with the place of each. Asking changes nothing.
pub trait Record {
    ghost nodes: { Self → List Node };

    ghost places: { Self → List ℕ };

    // The list has the shape of records. The member is the proof, and each `impl` gives it: a `law` is not covered where an impl has
    // a lifetime parameter.
    ghost shape: { (x : Self) → Shape (nodes x) };

    // Every node has a place.
    ghost placed: { (x : Self) → length (places x) ≡ length (nodes x) };

    // How many nodes there are.
    fn count(&self) -> usize
        ensures { result ≡ length (nodes self.now) };

    // The depth of node n, or 0 where there is none.
    fn depth(&self, n: usize) -> usize
        ensures { result ≡ depth_at (nodes self.now) n };

    // The value of node n in hundredths; none at a branch, and where there is no node n.
    fn value(&self, n: usize) -> Option<i32>
        ensures { result ≡ value_at (nodes self.now) n };

    // The place of node n, or 0 where there is none.
    fn place(&self, n: usize) -> usize
        ensures { result ≡ slice_index (places self.now) n };

    // Whether there is a node n and its name is, byte for byte, the given one.
    fn is_named(&self, n: usize, name: &[u8]) -> bool
        ensures { result ≡ named_at (nodes self.now) n name.now };
}
