ghost use Rattle.std.specs.Prelude.{◌≡◌, Some};
ghost use Rattle.reading.specs.Faults.{numbers, printed};
ghost use Rattle.bays.specs.Bays.{blame};

use games::watched::sheets::SheetsFault;
use reading::faults::ReadFault;
use std::error::Error;
use std::fmt;

/// Why an input is no bay: which part of it is refused, with its fault.
#[derive(Clone, Copy, PartialEq, Eq, Debug)]
pub enum BayFault {
    /// The five lengths do not fit the input.
    Lengths(ReadFault),
    /// A sheet of side 0's machine.
    First(SheetsFault),
    /// A sheet of side 1's machine.
    Second(SheetsFault),
    /// The phase table.
    Table(ReadFault),
}

impl BayFault {
    /// The fault of reading, whichever part it is in.
    pub fn reading(&self) -> ReadFault
        ensures { numbers result ≡ (blame self.now).fault }
    {
        match self {
            BayFault::Lengths(fault) | BayFault::Table(fault) => *fault,
            BayFault::First(fault) | BayFault::Second(fault) => fault.reading(),
        }
    }
}

impl fmt::Display for BayFault {
    ghost output = { λ x. Some (printed (blame x).fault) };

    fn fmt<W: fmt::Write>(&self, f: &mut fmt::Formatter<W>) -> fmt::Result {
        let fault = self.reading();
        write!(f, "{fault}")
    }
}

impl Error for BayFault {}
