// A theorem about the definitions that the contracts cite. The call owes its proof, and computes nothing.
ghost use Rattle.blocks.specs.Laws.{BlockRule};

// The blocks that `take` accepts are those of the layout, with its nodes.
pub fn block_rule()
    ensures { BlockRule }
{}
