// The laws of the layers: each function's contract is a theorem on the definitions that the contracts of `hide` and `cut` cite.
ghost use Rattle.layers.specs.Laws.{CutNothing, CutWhole, CuttingTakes, HiddenAndKept, HiddenOnce, HidingKeeps, NonWordHidesNothing, OneSelection};

// What is selected is one list.
pub fn one_selection()
    ensures { OneSelection }
{}

// Hiding keeps the nodes that have no node of the name above them and are none themselves.
pub fn hiding_keeps()
    ensures { HidingKeeps }
{}

// Cutting takes a node and all beneath it.
pub fn cutting_takes()
    ensures { CuttingTakes }
{}

// A name that is no word hides nothing.
pub fn non_word_hides_nothing()
    ensures { NonWordHidesNothing }
{}

// Hiding twice is hiding once.
pub fn hidden_once()
    ensures { HiddenOnce }
{}

// The nodes that are kept and those that are hidden are together as many as there are.
pub fn hidden_and_kept()
    ensures { HiddenAndKept }
{}

// A record of one tree, cut at its first node, is that record.
pub fn cut_whole()
    ensures { CutWhole }
{}

// Cut at a node that is not there, nothing is left.
pub fn cut_nothing()
    ensures { CutNothing }
{}
