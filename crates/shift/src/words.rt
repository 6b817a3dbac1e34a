use cell::faults::CellFault;
use std::fmt::{self, Formatter, Write};

/// A side's machine.
pub(crate) fn machine(side: u8) -> &'static str {
    match side {
        0 => "the lift",
        1 => "the shuttle",
        _ => "the bay",
    }
}

/// What a refusal means, and what to do.
fn meaning(fault: &CellFault) -> &'static str {
    match fault {
        CellFault::Checking { fault, .. } if fault.reading().is_some() => {
            "the new table came damaged (send it again)"
        }
        CellFault::Checking { .. } =>
            "the new table does not keep what it promises (solve it anew)",
        CellFault::NotKept { .. } =>
            "the new table says nothing of where it stands (offer it when the machine stands in a state that it keeps)",
        CellFault::RankRises { .. } =>
            "it would have to wait longer than it was told (offer it at a goal)",
        CellFault::Idle => "there is no table yet (offer one first)",
        CellFault::NoChoice { .. } => "it has nothing to show (offer a table)",
        CellFault::NoSuchMove { .. } => "it cannot have come there (look where it is)",
    }
}

/// A refusal: its number, whose it is, the place in damaged bytes, what it means and what to do.
#[derive(Clone, Copy)]
pub(crate) struct Refused(pub(crate) CellFault);

impl fmt::Display for Refused {
    fn fmt<W: Write>(&self, f: &mut Formatter<W>) -> fmt::Result {
        let Refused(fault) = self;
        write!(f, "refused {}, {}", fault.number(), machine(fault.side()))?;
        if let Some(read) = fault.reading() {
            write!(f, ", at byte {}", read.place())?;
        }
        write!(f, ": {}", meaning(fault))
    }
}
