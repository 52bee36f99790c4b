// The law of the reports: the function's contract is a theorem on the definitions that the contract of `outline` cites.
ghost use Rattle.reports.specs.Laws.{OneReport};

// Every input has one report, and no other.
pub fn one_report()
    ensures { OneReport }
{}
