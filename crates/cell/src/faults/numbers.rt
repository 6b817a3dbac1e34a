ghost use Rattle.std.specs.Prelude.{◌≡◌};
ghost use Rattle.std.specs.Option.{option_map};
ghost use Rattle.reading.specs.Faults.{numbers as read_numbers};
ghost use Rattle.cell.specs.Faults.{numbers};

use crate::faults::CellFault;
use reading::faults::ReadFault;

/// Stands for a value that does not apply.
const NONE: u16 = 65_535;

/// Stands for neither side.
const NEITHER: u8 = 2;

// Published in numbers, as the faults of checking are.
impl CellFault {
    /// The refusal's number.
    pub fn number(&self) -> u8
        ensures { result ≡ (numbers self.now).fault.number }
    {
        match *self {
            CellFault::Checking { fault, .. } => fault.number(),
            CellFault::NotKept { .. } => 30,
            CellFault::RankRises { .. } => 31,
            CellFault::Idle => 32,
            CellFault::NoSuchMove { .. } => 33,
            CellFault::NoChoice { .. } => 34,
        }
    }

    /// The side that it is about; 2 for neither.
    pub fn side(&self) -> u8
        ensures { result ≡ (numbers self.now).side }
    {
        match *self {
            CellFault::Checking { side, .. }
            | CellFault::NotKept { side }
            | CellFault::RankRises { side }
            | CellFault::NoChoice { side }
            | CellFault::NoSuchMove { side } => side,
            CellFault::Idle => NEITHER,
        }
    }

    /// The fault of reading, if it is one: a question, and no failure.
    pub fn reading(&self) -> Option<ReadFault>
        ensures { option_map read_numbers result ≡ (numbers self.now).fault.reading }
    {
        match *self {
            CellFault::Checking { fault, .. } => fault.reading(),
            _ => None,
        }
    }

    /// The state that it is about; 65,535 where there is none.
    pub fn state(&self) -> u16
        ensures { result ≡ (numbers self.now).fault.state }
    {
        match *self {
            CellFault::Checking { fault, .. } => fault.state(),
            _ => NONE,
        }
    }

    /// The phase that it is about; 65,535 where there is none.
    pub fn phase(&self) -> u16
        ensures { result ≡ (numbers self.now).fault.phase }
    {
        match *self {
            CellFault::Checking { fault, .. } => fault.phase(),
            _ => NONE,
        }
    }

    /// The partner signal that it is about; 65,535 where there is none.
    pub fn partner(&self) -> u16
        ensures { result ≡ (numbers self.now).fault.partner }
    {
        match *self {
            CellFault::Checking { fault, .. } => fault.partner(),
            _ => NONE,
        }
    }

    /// The next state that it is about; 65,535 where there is none.
    pub fn next(&self) -> u16
        ensures { result ≡ (numbers self.now).fault.next }
    {
        match *self {
            CellFault::Checking { fault, .. } => fault.next(),
            _ => NONE,
        }
    }
}
