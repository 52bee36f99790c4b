// The reports that are asked of a text or a gate block.
ghost use Rattle.std.specs.Prelude.{◌≡◌, IfOk};
ghost use Rattle.reports.specs.Outlines.{Outlined};
ghost use Rattle.reports.specs.Sources.{block_report, text_listing};

use crate::listings::{Listing, refused, report_input};
use crate::piles::{Asked, list_asked};
use crate::standing::TextNames;
use blocks::BlockRecord;
use record_text::{Entry, TextRecord};
use std::alloc::{AllocError, Global};

impl<'w> Listing for Asked<'w> {
    ghost said = { λ a t es. text_listing a t es };

    fn list(&self, heap: Global, text: &[u8], entries: &[Entry]) -> Result<Vec<u8>, AllocError> {
        let mut record = TextRecord::empty();
        // A list that `open` wrote is never refused.
        let _ = record.lay(text, entries);
        list_asked(heap, &record, &TextNames(text), *self)
    }
}

// The report that is asked of a record text, or the line of a refusal.
pub fn outline_text(heap: Global, input: &[u8], asked: Asked<'_>) -> Result<Vec<u8>, AllocError>
    ensures { IfOk result (λ v. Outlined (text_listing asked.entry input.now) input.now v.items) }
{
    report_input(heap, input, &asked)
}

// The report that is asked of a gate block, or the line of a refusal.
pub fn outline_block(heap: Global, block: &[u8], asked: Asked<'_>) -> Result<Vec<u8>, AllocError>
    ensures { IfOk result (λ v. v.items ≡ block_report asked.entry block.now) }
{
    let mut record = BlockRecord::empty();
    match record.take(block) {
        Ok(()) => list_asked(heap, &record, &record, asked),
        Err(refusal) => refused(heap, refusal),
    }
}
