// Why a text is not read.
ghost use Rattle.std.specs.Prelude.{◌≡◌};
ghost use Rattle.form_text.specs.declared.errors.RuleError.TheVariants as rule;
ghost use Rattle.form_text.specs.declared.errors.StartError.TheVariants as start;
ghost use Rattle.form_text.specs.declared.errors.Unread.TheVariants as unread;
ghost use Rattle.form_text.specs.Reads.{as_rule_error, as_start_error};

use std::alloc::AllocError;

// Two types, since a start has no values: read with `RuleError`, it would be said that it may answer `LowAboveHigh`.
#[derive(Clone, Copy, Debug, PartialEq, Eq)]
pub enum RuleError {
    // not of the form of a rule text
    NotOfForm,
    // a leaf rule whose low value is above its high value
    LowAboveHigh,
    NoMemory,
}

#[derive(Clone, Copy, Debug, PartialEq, Eq)]
pub enum StartError {
    // not of the form of a start text
    NotOfForm,
    NoMemory,
}

// Why the tokens of a part, of a rule or of a start, are not read. (A `StartError` says so of a whole start text.)
#[derive(Clone, Copy)]
pub(crate) enum Unread {
    // not of the form of the part
    NotOfForm,
    NoMemory,
}

// (By hand, these five, since their contracts say which error they make; derived ones have none.)
impl From<AllocError> for RuleError {
    ghost from_gives = { λ _ r. r ≡ rule.NoMemory };

    fn from(_error: AllocError) -> RuleError {
        RuleError::NoMemory
    }
}

impl From<AllocError> for StartError {
    ghost from_gives = { λ _ r. r ≡ start.NoMemory };

    fn from(_error: AllocError) -> StartError {
        StartError::NoMemory
    }
}

impl From<AllocError> for Unread {
    ghost from_gives = { λ _ r. r ≡ unread.NoMemory };

    fn from(_error: AllocError) -> Unread {
        Unread::NoMemory
    }
}

impl From<Unread> for RuleError {
    ghost from_gives = { λ e r. r ≡ as_rule_error e };

    fn from(error: Unread) -> RuleError {
        match error {
            Unread::NotOfForm => RuleError::NotOfForm,
            Unread::NoMemory => RuleError::NoMemory,
        }
    }
}

impl From<Unread> for StartError {
    ghost from_gives = { λ e r. r ≡ as_start_error e };

    fn from(error: Unread) -> StartError {
        match error {
            Unread::NotOfForm => StartError::NotOfForm,
            Unread::NoMemory => StartError::NoMemory,
        }
    }
}
