// The kind of every byte, by one table.
ghost use Rattle.std.specs.Prelude.{◌≡◌, ◌==◌, map};
ghost use Rattle.std.specs.List.{range_with_len};
ghost use Rattle.lexical.specs.Kinds.{digit, kind, kind_rule};
ghost use Rattle.lexical.specs.Numbers.{figure_kind};
ghost use Rattle.lexical.specs.Words.{begins_word, continues_word};

// What a byte is to the readers of text.
#[derive(Clone, Copy, PartialEq, Eq)]
pub enum Kind {
    Letter,
    Digit,
    Hyphen,
    Point,
    Less,
    Greater,
    Slash,
    Blank,
    Other,
}

impl Kind {
    // Whether a word may begin with it.
    pub fn begins_word(self) -> bool
        ensures { result ≡ begins_word self }
    {
        matches!(self, Kind::Letter)
    }

    // Whether a word may go on with it.
    pub fn continues_word(self) -> bool
        ensures { result ≡ continues_word self }
    {
        matches!(self, Kind::Letter | Kind::Digit | Kind::Hyphen)
    }

    // Whether numbers are written with it.
    pub fn in_number(self) -> bool
        ensures { result ≡ figure_kind self }
    {
        matches!(self, Kind::Digit | Kind::Hyphen | Kind::Point)
    }
}

// The kinds of the 256 bytes. A `match` on ranges of bytes says the same in ten lines, but with it `open` takes more than twice as
// long (docs/TIMES.md). A `static` is read in place; a `const` would be built anew in each function that names it.
static KINDS: [Kind; 256] = [
    Kind::Other,
    Kind::Other,
    Kind::Other,
    Kind::Other,
    Kind::Other,
    Kind::Other,
    Kind::Other,
    Kind::Other,
    Kind::Other,
    Kind::Blank,
    Kind::Blank,
    Kind::Other,
    Kind::Other,
    Kind::Blank,
    Kind::Other,
    Kind::Other,
    Kind::Other,
    Kind::Other,
    Kind::Other,
    Kind::Other,
    Kind::Other,
    Kind::Other,
    Kind::Other,
    Kind::Other,
    Kind::Other,
    Kind::Other,
    Kind::Other,
    Kind::Other,
    Kind::Other,
    Kind::Other,
    Kind::Other,
    Kind::Other,
    Kind::Blank,
    Kind::Other,
    Kind::Other,
    Kind::Other,
    Kind::Other,
    Kind::Other,
    Kind::Other,
    Kind::Other,
    Kind::Other,
    Kind::Other,
    Kind::Other,
    Kind::Other,
    Kind::Other,
    Kind::Hyphen,
    Kind::Point,
    Kind::Slash,
    Kind::Digit,
    Kind::Digit,
    Kind::Digit,
    Kind::Digit,
    Kind::Digit,
    Kind::Digit,
    Kind::Digit,
    Kind::Digit,
    Kind::Digit,
    Kind::Digit,
    Kind::Other,
    Kind::Other,
    Kind::Less,
    Kind::Other,
    Kind::Greater,
    Kind::Other,
    Kind::Other,
    Kind::Letter,
    Kind::Letter,
    Kind::Letter,
    Kind::Letter,
    Kind::Letter,
    Kind::Letter,
    Kind::Letter,
    Kind::Letter,
    Kind::Letter,
    Kind::Letter,
    Kind::Letter,
    Kind::Letter,
    Kind::Letter,
    Kind::Letter,
    Kind::Letter,
    Kind::Letter,
    Kind::Letter,
    Kind::Letter,
    Kind::Letter,
    Kind::Letter,
    Kind::Letter,
    Kind::Letter,
    Kind::Letter,
    Kind::Letter,
    Kind::Letter,
    Kind::Letter,
    Kind::Other,
    Kind::Other,
    Kind::Other,
    Kind::Other,
    Kind::Other,
    Kind::Other,
    Kind::Letter,
    Kind::Letter,
    Kind::Letter,
    Kind::Letter,
    Kind::Letter,
    Kind::Letter,
    Kind::Letter,
    Kind::Letter,
    Kind::Letter,
    Kind::Letter,
    Kind::Letter,
    Kind::Letter,
    Kind::Letter,
    Kind::Letter,
    Kind::Letter,
    Kind::Letter,
    Kind::Letter,
    Kind::Letter,
    Kind::Letter,
    Kind::Letter,
    Kind::Letter,
    Kind::Letter,
    Kind::Letter,
    Kind::Letter,
    Kind::Letter,
    Kind::Letter,
    Kind::Other,
    Kind::Other,
    Kind::Other,
    Kind::Other,
    Kind::Other,
    Kind::Other,
    Kind::Other,
    Kind::Other,
    Kind::Other,
    Kind::Other,
    Kind::Other,
    Kind::Other,
    Kind::Other,
    Kind::Other,
    Kind::Other,
    Kind::Other,
    Kind::Other,
    Kind::Other,
    Kind::Other,
    Kind::Other,
    Kind::Other,
    Kind::Other,
    Kind::Other,
    Kind::Other,
    Kind::Other,
    Kind::Other,
    Kind::Other,
    Kind::Other,
    Kind::Other,
    Kind::Other,
    Kind::Other,
    Kind::Other,
    Kind::Other,
    Kind::Other,
    Kind::Other,
    Kind::Other,
    Kind::Other,
    Kind::Other,
    Kind::Other,
    Kind::Other,
    Kind::Other,
    Kind::Other,
    Kind::Other,
    Kind::Other,
    Kind::Other,
    Kind::Other,
    Kind::Other,
    Kind::Other,
    Kind::Other,
    Kind::Other,
    Kind::Other,
    Kind::Other,
    Kind::Other,
    Kind::Other,
    Kind::Other,
    Kind::Other,
    Kind::Other,
    Kind::Other,
    Kind::Other,
    Kind::Other,
    Kind::Other,
    Kind::Other,
    Kind::Other,
    Kind::Other,
    Kind::Other,
    Kind::Other,
    Kind::Other,
    Kind::Other,
    Kind::Other,
    Kind::Other,
    Kind::Other,
    Kind::Other,
    Kind::Other,
    Kind::Other,
    Kind::Other,
    Kind::Other,
    Kind::Other,
    Kind::Other,
    Kind::Other,
    Kind::Other,
    Kind::Other,
    Kind::Other,
    Kind::Other,
    Kind::Other,
    Kind::Other,
    Kind::Other,
    Kind::Other,
    Kind::Other,
    Kind::Other,
    Kind::Other,
    Kind::Other,
    Kind::Other,
    Kind::Other,
    Kind::Other,
    Kind::Other,
    Kind::Other,
    Kind::Other,
    Kind::Other,
    Kind::Other,
    Kind::Other,
    Kind::Other,
    Kind::Other,
    Kind::Other,
    Kind::Other,
    Kind::Other,
    Kind::Other,
    Kind::Other,
    Kind::Other,
    Kind::Other,
    Kind::Other,
    Kind::Other,
    Kind::Other,
    Kind::Other,
    Kind::Other,
    Kind::Other,
    Kind::Other,
    Kind::Other,
    Kind::Other,
    Kind::Other,
    Kind::Other,
    Kind::Other,
    Kind::Other,
    Kind::Other,
    Kind::Other,
    Kind::Other,
    Kind::Other,
    Kind::Other,
    Kind::Other,
    Kind::Other,
    Kind::Other,
    Kind::Other,
    Kind::Other,
    Kind::Other,
];

// The entry of a byte in a table that follows the rule.
fn entry_of(table: &[Kind; 256], b: u8) -> Kind
    requires { table.now ≡ map kind_rule (range_with_len 0 256) }
    ensures { result ≡ kind b }
{
    table[b as usize]
}

// The kind of a byte. (No `From<u8>`, which would be a second name for it.) That the table follows the rule is what this call owes: one
// comparison of the whole table, computed.
pub fn kind_of(b: u8) -> Kind
    ensures { result ≡ kind b }
{
    entry_of(&KINDS, b)
}

// Of the single signs, and of digits, contracts speak by the byte's value. These ask its kind, so that the table decides there too.

pub(crate) fn is_digit(b: u8) -> bool
    ensures { result ≡ digit b }
{
    matches!(kind_of(b), Kind::Digit)
}

pub(crate) fn is_hyphen(b: u8) -> bool
    ensures { result ≡ (b == 45) }
{
    matches!(kind_of(b), Kind::Hyphen)
}

pub(crate) fn is_point(b: u8) -> bool
    ensures { result ≡ (b == 46) }
{
    matches!(kind_of(b), Kind::Point)
}

// Whether a byte is a `>`.
pub fn is_greater(b: u8) -> bool
    ensures { result ≡ (b == 62) }
{
    matches!(kind_of(b), Kind::Greater)
}

// Whether a byte is a `/`.
pub fn is_slash(b: u8) -> bool
    ensures { result ≡ (b == 47) }
{
    matches!(kind_of(b), Kind::Slash)
}
