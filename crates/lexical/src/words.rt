// Words: the names of nodes.
ghost use Rattle.std.specs.Prelude.{◌≡◌};
ghost use Rattle.std.specs.List.{list_all};
ghost use Rattle.lexical.specs.Kinds.{kind};
ghost use Rattle.lexical.specs.Words.{continues_word, spelled, word};

use crate::kinds::kind_of;

// The most bytes that a word has.
pub const LONGEST_WORD: usize = 16;

// Whether a word may go on with these bytes.
fn continue_word(bytes: &[u8]) -> bool
    ensures { result ≡ list_all (λ b. continues_word (kind b)) bytes.now }
{
    bytes.iter().all(|b| kind_of(*b).continues_word())
}

// Whether the bytes are a letter, and then letters, digits and hyphens.
fn is_spelled(bytes: &[u8]) -> bool
    ensures { result ≡ spelled bytes.now }
{
    match bytes {
        [first, rest @ ..] => kind_of(*first).begins_word() && continue_word(rest),
        [] => false,
    }
}

// Whether the bytes are a word: a letter followed by letters, digits or hyphens, 1 to 16 bytes in all.
pub fn is_word(bytes: &[u8]) -> bool
    ensures { result ≡ word bytes.now }
{
    bytes.len() <= LONGEST_WORD && is_spelled(bytes)
}
