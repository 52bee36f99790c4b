ghost use Rattle.std.specs.Prelude.{◌≡◌};
ghost use Rattle.record_text.specs.Pass.{completed, read};
ghost use Rattle.record_text.specs.Yielding.{Yields, coming, pending};

use super::Reader;
use crate::items::Cutter;
use crate::nest::{Done, Nest, OpenTag};
use records::MOST_LEVELS;
use refusals::Refusal;

impl<'t, 's> Reader<'t, 's> {
    // All of a text, with slots for the open tags.
    pub(crate) fn over(text: &'t [u8], slots: &'s mut [OpenTag<'t>; MOST_LEVELS]) -> Reader<'t, 's>
        ensures pending { pending result ≡ read text.now }
        ensures coming { coming result ≡ completed text.now }
    {
        Reader {
            cutter: Cutter::over(text),
            nest: Nest::over(slots),
        }
    }

    // How many nodes have begun.
    pub(crate) fn nodes(&self) -> usize
        ensures { result ≡ self.now.nest.nodes }
    {
        self.nest.nodes
    }

    // The next node that is complete, or none at the end of the text.
    pub(crate) fn next_node(&mut self) -> Result<Option<Done>, Refusal>
        ensures { Yields self.old result self.new }
    {
        while let Some(piece) = self.cutter.next_item() {
            if let Some(done) = self.nest.take(piece)? {
                return Ok(Some(done));
            }
        }
        self.nest.end(self.cutter.place())?;
        Ok(None)
    }
}
