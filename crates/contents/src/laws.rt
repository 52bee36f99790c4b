// Theorems about the definitions that the contracts cite. Each call owes the proof of one; none computes anything.
ghost use Rattle.contents.specs.Laws.{HasWords, LocalRule, MarkingRule, SetsRule};

// Every content has a word.
pub fn has_words()
    ensures { HasWords }
{}

// The computed sets are the declared ones.
pub fn sets_rule()
    ensures { SetsRule }
{}

// A content in which each occurrence stands once is known by its sets.
pub fn local_rule()
    ensures { LocalRule }
{}

// In a marked content each occurrence stands once.
pub fn marking_rule()
    ensures { MarkingRule }
{}
