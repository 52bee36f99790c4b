// The questions of records, put to a text.
ghost use Rattle.std.specs.Prelude.{◌≡◌, length};
ghost use Rattle.record_text.specs.Laying.{entries_of, text_of};
ghost use Rattle.record_text.specs.Texts.{Found, text_level, text_node, text_nodes, text_places, text_shape};

use super::TextRecord;
use crate::entry::Entry;
use records::Record;

impl<'t, 'n> TextRecord<'t, 'n> {
    // How many nodes there are.
    fn len(&self) -> usize
        ensures { result ≡ length (text_nodes (text_of self.now) (entries_of self.now)) }
    {
        self.nodes.len()
    }

    // The entry of node n, if there is one.
    fn entry(&self, n: usize) -> Option<Entry>
        ensures { Found (text_of self.now) (entries_of self.now) n result }
    {
        self.nodes.get(n).copied()
    }
}

impl<'t, 'n> Record for TextRecord<'t, 'n> {
    ghost nodes = { λ x. text_nodes (text_of x) (entries_of x) };

    ghost places = { λ x. text_places (entries_of x) };

    ghost shape = { λ x. text_shape x.text.now x.nodes.now x.few x.shape };

    ghost placed = { λ x. text_level (text_of x) (entries_of x) };

    fn count(&self) -> usize {
        self.len()
    }

    fn depth(&self, n: usize) -> usize {
        self.entry(n).map_or(0, |entry| entry.depth)
    }

    fn value(&self, n: usize) -> Option<i32> {
        self.entry(n)?.value
    }

    fn place(&self, n: usize) -> usize {
        self.entry(n).map_or(0, |entry| entry.start)
    }

    fn is_named(&self, n: usize, name: &[u8]) -> bool {
        self.entry(n)
            .is_some_and(|entry| entry.name(self.text) == name)
    }
}
