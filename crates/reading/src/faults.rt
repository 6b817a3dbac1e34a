mod numbers;

ghost use Rattle.std.specs.Prelude.{◌≡◌, Some, Ok, Err, cond};
ghost use Rattle.reading.specs.Faults.{numbers, printed};

use std::error::Error;
use std::fmt;

// A length stands as its place where a fault is made, `Size(length_place(bytes))`: a name for it would say no more.

/// Why bytes are no sheet, with the place of the first byte that is wrong.
#[derive(Clone, Copy, PartialEq, Eq, Debug)]
pub enum ReadFault {
    /// Shorter than the fixed fields; the place is the length.
    Short(u16),
    /// A field out of range.
    Field(u16),
    /// Of another length than its fields say; the place is the length, at most 65,535.
    Size(u16),
    /// An entry out of range.
    Entry(u16),
    /// A move that does not come after the one before it.
    Order(u16),
    /// A state that is both forbidden and a goal.
    Clash(u16),
    /// More than 256 states together with the automaton's.
    TooLarge,
}

impl fmt::Display for ReadFault {
    ghost output = { λ fault. Some (printed (numbers fault)) };

    fn fmt<W: fmt::Write>(&self, f: &mut fmt::Formatter<W>) -> fmt::Result {
        write!(f, "refused {} at byte {}", self.number(), self.place())
    }
}

impl Error for ReadFault {}

/// The fault, unless the test holds.
pub fn check<F: Drop>(test: bool, fault: F) -> Result<(), F>
    ensures { result ≡ cond test (Ok tt) (Err fault) }
{
    if test { Ok(()) } else { Err(fault) }
}
