// Theorems about the definitions that the contracts cite. Each call owes the proof of one; none computes anything.
ghost use Rattle.pieces.specs.Cutting.{PiecesRule};

// `pieces` are what a text is cut into, and it is cut in one way only.
pub fn pieces_rule()
    ensures { PiecesRule }
{}
