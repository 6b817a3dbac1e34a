mod numbers;

ghost use Rattle.std.specs.Prelude.{◌≡◌, ◌++◌, Some, codes, decimal};
ghost use Rattle.cell.specs.Faults.{numbers};

use checking::faults::CheckFault;
use std::error::Error;
use std::fmt;

/// Why a cell refuses an offer or a report, and which side it is about.
#[derive(Clone, Copy, PartialEq, Eq, Debug)]
pub enum CellFault {
    /// A record is no ranked controller for its side.
    Checking { fault: CheckFault, side: u8 },
    /// The state in which a machine stands is not kept in phase 0 of its new record.
    NotKept { side: u8 },
    /// The rank there is above the present one.
    RankRises { side: u8 },
    /// No offer was accepted yet.
    Idle,
    /// There is no choice at the present position.
    NoChoice { side: u8 },
    /// The state that is reported is no possible next state.
    NoSuchMove { side: u8 },
}

impl fmt::Display for CellFault {
    ghost output = { λ x. Some (codes "refused " ++ decimal (numbers x).fault.number) };

    fn fmt<W: fmt::Write>(&self, f: &mut fmt::Formatter<W>) -> fmt::Result {
        let number = self.number();
        write!(f, "refused {number}")
    }
}

impl Error for CellFault {}
