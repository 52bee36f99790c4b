// Reports of record text: one reading of the input for whatever is then said of the record.
ghost use Rattle.std.specs.Prelude.{◌≡◌, ℕ, List, IfOk};
ghost use Rattle.refusals.specs.Refusals.{number, places};
ghost use Rattle.reports.specs.Lines.{refused_line};
ghost use Rattle.record_text.specs.declared.entry.Entry.{Entry};
ghost use Rattle.record_text.specs.Opening.{Reads};
ghost use Rattle.reports.specs.Outlines.{Outlined, Reported};

use crate::report::Report;
use record_text::{Entry, open};
use records::MOST_NODES;
use refusals::Refusal;
use std::alloc::{AllocError, Global};

// The most bytes that an input may have.
pub const MOST_INPUT: usize = 16384;

// A report that is the line of a refusal.
pub fn refused(heap: Global, refusal: Refusal) -> Result<Vec<u8>, AllocError>
    ensures { IfOk result (λ v. v.items ≡ refused_line (number refusal) (places refusal)) }
{
    let mut report = Report::new(heap);
    report.push_refused(refusal)?;
    Ok(report.into_bytes())
}

// What is said of a record text.
pub(crate) trait Listing {
    ghost said: { Self → List ℕ → List Entry → List ℕ };

    // What is said of the record that the text reads as, by its entries.
    fn list(&self, heap: Global, text: &[u8], entries: &[Entry]) -> Result<Vec<u8>, AllocError>
        ensures { Reads text.now entries.now → IfOk result (λ v. v.items ≡ said self.now text.now entries.now) };
}

// The report of a text of any length.
fn report_text<L: Listing>(heap: Global, text: &[u8], listing: &L) -> Result<Vec<u8>, AllocError>
    ensures { IfOk result (λ v. Reported (L.said listing.now text.now) text.now v.items) }
{
    let mut list = vec![in heap; Entry::default(); MOST_NODES]?;
    match open(text, &mut list) {
        Ok(nodes) => listing.list(heap, text, &list[..nodes]),
        Err(refusal) => refused(heap, refusal),
    }
}

// The report of an input that is record text, or the line of a refusal.
pub(crate) fn report_input<L: Listing>(
    heap: Global,
    input: &[u8],
    listing: &L,
) -> Result<Vec<u8>, AllocError>
    ensures { IfOk result (λ v. Outlined (L.said listing.now input.now) input.now v.items) }
{
    if input.len() > MOST_INPUT {
        return refused(heap, Refusal::Input);
    }
    report_text(heap, input, listing)
}
