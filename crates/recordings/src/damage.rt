ghost use Rattle.std.specs.Prelude.{◌≡◌, Some};
ghost use Rattle.recordings.specs.Damages.{numbers, printed};

use bays::faults::BayFault;
use std::error::Error;
use std::fmt;

/// Why an input is no whole recording, with the place in it.
#[derive(Clone, Copy, PartialEq, Eq, Debug)]
pub enum Damage {
    /// It ends inside the length, the bay or a call; the place is its length.
    Ends(usize),
    /// No call begins with this byte, or no question is meant by it.
    Unknown(usize),
    /// The bay is refused: its fault, and the place in the whole input.
    Bay { fault: BayFault, place: usize },
}

impl Damage {
    /// The refusal's number.
    pub fn number(&self) -> u8
        ensures { result ≡ (numbers self.now).number }
    {
        match self {
            Damage::Ends(_) => 1,
            Damage::Unknown(_) => 2,
            Damage::Bay { fault, .. } => fault.reading().number(),
        }
    }

    /// The place in the whole input.
    pub fn place(&self) -> usize
        ensures { result ≡ (numbers self.now).place }
    {
        match *self {
            Damage::Ends(place) | Damage::Unknown(place) | Damage::Bay { place, .. } => place,
        }
    }
}

impl fmt::Display for Damage {
    ghost output = { λ x. Some (printed (numbers x)) };

    fn fmt<W: fmt::Write>(&self, f: &mut fmt::Formatter<W>) -> fmt::Result {
        write!(f, "refused {} byte {}", self.number(), self.place())
    }
}

impl Error for Damage {}
