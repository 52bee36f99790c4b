// Theorems about the definitions that the contracts cite. Each call owes the proof of one; none computes anything.
ghost use Rattle.form_grammar.specs.Laws.{OneMeaning, ParserRule, TextsRule};
ghost use Rattle.form_grammar.specs.Worked.{WorkedDepth, WorkedSets, WorkedTexts};

// The parser of pieces gives what the grammar says.
pub fn parser_rule()
    ensures { ParserRule }
{}

// `rule_of` and `start_of` give what texts say.
pub fn texts_rule()
    ensures { TextsRule }
{}

// A text says one thing at most.
pub fn one_meaning()
    ensures { OneMeaning }
{}

// What the texts of a worked form say.
pub fn worked_texts()
    ensures { WorkedTexts }
{}

// Brackets at the limit and past it.
pub fn worked_depth()
    ensures { WorkedDepth }
{}

// What opens, closes and follows in the worked form.
pub fn worked_sets()
    ensures { WorkedSets }
{}
