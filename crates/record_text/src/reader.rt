// The reading of a text, a node at a time.
mod nodes;

use crate::items::Cutter;
use crate::nest::Nest;

// What is left of a text to read, and the elements that are open there.
#[derive(Drop)]
pub struct Reader<'t, 's> {
    cutter: Cutter<'t>,
    nest: Nest<'t, 's>,
}
