// A stack over a slice that the caller lends, last in, first out, for every kind of entry that is `Copy`.
ghost use Rattle.std.specs.Prelude.{◌≤◌, length};

mod ops;

// `count` entries lie at the front of the slots. The memory is lent and never grows, so that a caller knows at the start how much
// there is: that is why this is no `Vec`.
#[derive(Drop)]
pub struct Stack<'a, T> {
    slots: &'a mut [T],
    count: usize,
    ghost fits: { count ≤ length slots.now },
}
