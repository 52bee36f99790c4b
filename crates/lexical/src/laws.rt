// Theorems about the definitions that the contracts cite. Each call owes the proof of one; none computes anything.
ghost use Rattle.lexical.specs.Numbers.{NumberRule, WorkedNumbers};
ghost use Rattle.lexical.specs.Rounding.{RoundingRule};

// What `hundredths` is.
pub fn rounding_rule()
    ensures { RoundingRule }
{}

// `number` reads the numbers of the grammar, and nothing else.
pub fn number_rule()
    ensures { NumberRule }
{}

// Four numbers with their values.
pub fn worked_numbers()
    ensures { WorkedNumbers }
{}
