// Cuts a text into items.
ghost use Rattle.std.specs.Prelude.{◌≤◌, length};

mod cutting;
mod first;

// An item, by what of it is needed.
#[derive(Clone, Copy)]
pub enum Item<'t> {
    // a blank
    Gap,
    // what stands between a `<` and the next `>`
    Tag(&'t [u8]),
    // digits, hyphens and points, as many as there are
    Number(&'t [u8]),
    // a byte that begins no other item
    Stray,
    // a `<` with no `>` after it, and all that follows
    Lone,
}

// An item, where it begins, and where the next one does.
#[derive(Clone, Copy)]
pub struct Placed<'t> {
    pub item: Item<'t>,
    pub start: usize,
    pub end: usize,
}

// The rest of a text of `len` bytes, which is still to be cut.
#[derive(Clone, Copy)]
pub struct Cutter<'t> {
    len: usize,
    rest: &'t [u8],
    ghost within: { length rest.now ≤ len },
}
