// Values as text.
ghost use Rattle.std.specs.Prelude.{◌≡◌, Some};
ghost use Rattle.reports.specs.Lines.{sign_text, value_text};

use std::fmt;

// A number of hundredths, as a decimal with two digits after the point.
#[derive(Clone, Copy)]
pub(crate) struct Hundredths(pub i64);

// The minus of a number below zero.
fn sign(value: i64) -> &'static str
    ensures { result.now ≡ sign_text value }
{
    if value < 0 { "-" } else { "" }
}

impl fmt::Display for Hundredths {
    ghost output = { λ h. Some (value_text h.0) };

    fn fmt<W: fmt::Write>(&self, f: &mut fmt::Formatter<W>) -> fmt::Result {
        // Digit by digit, as the definition has it.
        let sign = sign(self.0);
        let size = self.0.unsigned_abs();
        let whole = size / 100;
        let tenths = size / 10 % 10;
        let last = size % 10;
        write!(f, "{sign}{whole}.{tenths}{last}")
    }
}
