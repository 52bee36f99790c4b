// The passes over a text that `open` and `lay` make. They are no one function over a closure: after a call, a proof knows nothing of
// what a closure borrowed and changed; and no function makes the reader with its slots, which must outlive it. `open` makes the slots
// once for its two passes: what making them costs is most of what a text of a few bytes does.
ghost use Rattle.std.specs.Prelude.{◌≡◌, true, Decides, is_ok, slice_set};
ghost use Rattle.record_text.specs.Agree.{Has};
ghost use Rattle.record_text.specs.Opening.{Opened};
ghost use Rattle.record_text.specs.Pass.{entries, read};
ghost use Rattle.record_text.specs.Passing.{Compared, Faultless, Verdict};
ghost use Rattle.record_text.specs.Turns.{outcome};

use crate::entry::Entry;
use crate::nest::OpenTag;
use crate::reader::Reader;
use records::MOST_LEVELS;
use refusals::Refusal;

// How many nodes the text has, or its first item at fault.
fn counted<'t>(text: &'t [u8], slots: &mut [OpenTag<'t>; MOST_LEVELS]) -> Result<usize, Refusal>
    ensures { result ≡ outcome (read text.now) }
{
    let mut reader = Reader::over(text, slots);
    while reader.next_node()?.is_some() {}
    Ok(reader.nodes())
}

// Writes the entry of a node that lies in the list. (By index, since nothing is known of the elements after `get_mut`.)
fn put(list: &mut [Entry], node: usize, entry: Entry)
    ensures { list.new ≡ slice_set list.old node entry }
{
    if node < list.len() {
        list[node] = entry;
    }
}

// Writes the entry of each node that lies in the list.
fn fill<'t>(
    text: &'t [u8],
    list: &mut [Entry],
    slots: &mut [OpenTag<'t>; MOST_LEVELS],
) -> Result<(), Refusal>
    ensures read { Faultless text.now → is_ok result ≡ true }
    ensures written { Faultless text.now → list.new ≡ entries text.now list.old }
{
    let mut reader = Reader::over(text, slots);
    while let Some((node, entry)) = reader.next_node()? {
        put(list, node, entry);
    }
    Ok(())
}

fn has(list: &[Entry], node: usize, entry: Entry) -> bool
    ensures { Decides result (Has list.now node entry) }
{
    list.get(node) == Some(&entry)
}

// How many nodes the text has; refuses a list that has not the entry of each. It reads on where an entry differs, since an item at fault decides
// before that.
pub(crate) fn compared(text: &[u8], list: &[Entry]) -> Result<usize, Refusal>
    ensures { Compared text.now list.now result }
{
    let mut slots = [OpenTag::default(); MOST_LEVELS];
    let mut reader = Reader::over(text, &mut slots);
    let mut same = true;
    while let Some((node, entry)) = reader.next_node()? {
        same = same && has(list, node, entry);
    }
    let nodes = reader.nodes();
    (same && nodes <= list.len())
        .then_some(nodes)
        .ok_or(Refusal::List)
}

// What `open` answers, before anything is written: the text is counted, and then the room in the list.
fn verdict<'t>(
    text: &'t [u8],
    list: &[Entry],
    slots: &mut [OpenTag<'t>; MOST_LEVELS],
) -> Result<usize, Refusal>
    ensures { Verdict text.now list.now result }
{
    let nodes = counted(text, slots)?;
    if nodes > list.len() {
        return Err(Refusal::Short);
    }
    Ok(nodes)
}

// Writes one entry a node of the text into the list, and answers how many there are. Nothing is written before the whole text is
// read, so a refusal leaves the list as it was.
pub fn open(text: &[u8], list: &mut [Entry]) -> Result<usize, Refusal>
    ensures { Opened text.now list.old result list.new }
{
    let mut slots = [OpenTag::default(); MOST_LEVELS];
    let nodes = verdict(text, list, &mut slots)?;
    fill(text, list, &mut slots)?;
    Ok(nodes)
}
