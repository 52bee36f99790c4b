// A part that outlives the list.
ghost use Rattle.std.specs.Prelude.{◌≡◌, List, [], length, take};
ghost use Rattle.record_text.specs.Laying.{Begins, entries_of, text_of};
ghost use Rattle.record_text.specs.Opening.{Reads};
ghost use Rattle.record_text.specs.Parts.{part_of};

use super::TextRecord;
use crate::entry::Entry;

// The record of the text and the list, or one without nodes where `lay` refuses them.
fn laid<'t, 'n>(text: &'t [u8], list: &'n [Entry]) -> TextRecord<'t, 'n>
    ensures part { (es : List Entry) → Reads text.now es → take (length es) list.now ≡ es → part_of (text_of result) (entries_of result) 0 ≡ part_of text.now es 0 }
    ensures none { (Begins text.now list.now → ⊥) → part_of (text_of result) (entries_of result) 0 ≡ [] }
{
    let mut record = TextRecord::empty();
    let _ = record.lay(text, list);
    record
}

// The part that the first node takes up, or nothing where there is none or the list is not the text's. It borrows the text alone:
// the list and the record are gone when it is used.
pub fn first_part<'t>(text: &'t [u8], list: &[Entry]) -> &'t [u8]
    ensures part { (es : List Entry) → Reads text.now es → take (length es) list.now ≡ es → result.now ≡ part_of text.now es 0 }
    ensures none { (Begins text.now list.now → ⊥) → result.now ≡ [] }
{
    let record = laid(text, list);
    let (part, _) = record.part(0);
    part
}
