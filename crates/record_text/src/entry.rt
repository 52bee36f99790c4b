// What a text says of one node.
ghost use Rattle.std.specs.Prelude.{◌≡◌};
ghost use Rattle.record_text.specs.Entries.{entry};
ghost use Rattle.record_text.specs.Texts.{text_node};

use lexical::{after, part};

#[derive(Clone, Copy, Default, PartialEq, Eq)]
pub struct Entry {
    // the byte of its first `<`
    pub start: usize,
    // the byte just after its closing tag
    pub end: usize,
    pub name_len: usize,
    pub depth: usize,
    // a leaf's number, in hundredths; a branch has none
    pub value: Option<i32>,
}

impl Entry {
    // The entry of a branch, or of a leaf with this value.
    pub fn new(start: usize, end: usize, name_len: usize, depth: usize, value: Option<i32>) -> Entry
        ensures { result ≡ entry start end name_len depth value }
    {
        Entry {
            start,
            end,
            name_len,
            depth,
            value,
        }
    }
    // The node's name, as it stands in the text.
    pub fn name<'t>(&self, text: &'t [u8]) -> &'t [u8]
        ensures { result.now ≡ (text_node text.now self.now).name }
    {
        part(after(text, self.start), 0, self.name_len)
    }
}
