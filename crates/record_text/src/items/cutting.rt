ghost use Rattle.std.specs.Prelude.{◌≡◌, length};
ghost use Rattle.record_text.specs.Cutter.{Cuts, from};

use super::{Cutter, Placed};
use crate::items::first::first_item;

impl<'t> Cutter<'t> {
    pub(crate) fn over(text: &'t [u8]) -> Cutter<'t>
        ensures len { result.len ≡ length text.now }
        ensures rest { result.rest.now ≡ text.now }
    {
        Cutter {
            len: text.len(),
            rest: text,
        }
    }

    // The place of the next item.
    pub(crate) fn place(&self) -> usize
        ensures { result ≡ from self.now }
    {
        self.len - self.rest.len()
    }

    // The next item, unless the text is at its end. (An `Iterator`, and `for piece in self.cutter.by_ref()` in the reader: tried, the
    // impl is proved, but the loop's proof did not close, since after it the cutter is known by the reference's ghost name alone.)
    pub(crate) fn next_item(&mut self) -> Option<Placed<'t>>
        ensures { Cuts self.old result self.new }
    {
        let start = self.place();
        let (item, rest) = first_item(self.rest)?;
        self.rest = rest;
        Some(Placed {
            item,
            start,
            end: self.place(),
        })
    }
}
