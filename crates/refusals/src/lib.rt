// The refusals of the checker, each with its number and the place that it names.
#![tactic(auto)]

ghost use Rattle.std.specs.Prelude.{◌≡◌, Some};
ghost use Rattle.refusals.specs.Refusals.{number, places, text};
ghost use Rattle.std.specs.Option.{option_to_list};

use std::fmt;

#[derive(Clone, Copy, Debug, PartialEq, Eq)]
pub enum Refusal {
    // a record text whose first item at fault, at this place, does not fit, or that ends at this place with an element open
    Misfit(usize),
    // a record text whose first item at fault, at this place, begins an element beyond a limit
    Limit(usize),
    // a gate block that is not laid out as it should be, or whose nodes break the shape of records
    Block,
    // a lent list that is too short
    Short,
    // a list that does not begin with what `open` writes for the text
    List,
    // a program's input that is not of its form
    Input,
}

impl Refusal {
    // The number by which users know it: part of what the programs print.
    pub fn number(&self) -> u8
        ensures { result ≡ number self.now }
    {
        match self {
            Refusal::Misfit(_) => 3,
            Refusal::Limit(_) => 4,
            Refusal::Block => 5,
            Refusal::Short => 6,
            Refusal::List => 7,
            Refusal::Input => 8,
        }
    }

    pub fn place(&self) -> Option<usize>
        ensures { option_to_list result ≡ places self.now }
    {
        match self {
            Refusal::Misfit(place) | Refusal::Limit(place) => Some(*place),
            Refusal::Block | Refusal::Short | Refusal::List | Refusal::Input => None,
        }
    }
}

// What programs print of a refusal.
impl fmt::Display for Refusal {
    ghost output = { λ e. Some (text e) };

    fn fmt<W: fmt::Write>(&self, f: &mut fmt::Formatter<W>) -> fmt::Result {
        let number = self.number();
        match self.place() {
            Some(place) => write!(f, "refused {number} {place}"),
            None => write!(f, "refused {number}"),
        }
    }
}
