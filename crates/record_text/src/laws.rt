// The laws of record text: each function's contract is a theorem on the definitions that the contracts of `open` and of text records cite.
ghost use Rattle.record_text.specs.Laws.{FitsInText, KeepsShape, OneAnswer, OneCut, OneList, OneOpening};
ghost use Rattle.record_text.specs.Laying.{RecordsRead};

// Every text has one answer of those that the grammar and the limits give.
pub fn one_answer()
    ensures { OneAnswer }
{}

// A well-formed text has one list of entries.
pub fn one_list()
    ensures { OneList }
{}

// To a text and a list there is one answer of `open`, and one list afterwards.
pub fn one_opening()
    ensures { OneOpening }
{}

// A text is cut into items in one way.
pub fn one_cut()
    ensures { OneCut }
{}

// Items fit exactly if the items of some well-formed text begin with them.
pub fn fits_in_text()
    ensures { FitsInText }
{}

// The nodes of an accepted text have the shape of a record.
pub fn keeps_shape()
    ensures { KeepsShape }
{}

// Every text record holds what the grammar derives of its text.
pub fn records_read()
    ensures { RecordsRead }
{}
