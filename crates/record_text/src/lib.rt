// Record text: XML-like text read into a list of node entries.
#![tactic(auto)]

mod entry;
mod items;
mod laws;
mod nest;
mod opening;
mod reader;
mod tags;
mod text;

pub use entry::Entry;
pub use laws::{
    fits_in_text, keeps_shape, one_answer, one_cut, one_list, one_opening, records_read,
};
pub use opening::open;
pub use text::{TextRecord, first_part};
