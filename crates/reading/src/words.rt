use crate::faults::ReadFault;
use std::fmt::{self, Formatter, Write};

// For whoever made a sheet. Where a format knows more of what is wrong it says so itself.

/// What to do about a fault, as a sentence.
#[derive(Clone, Copy)]
pub struct Remedy(pub ReadFault);

impl fmt::Display for Remedy {
    fn fmt<W: Write>(&self, f: &mut Formatter<W>) -> fmt::Result {
        f.write_str(match self.0 {
            ReadFault::Short(_) => "Pass the whole of it.",
            ReadFault::Field(_) | ReadFault::Entry(_) => "Put a value in range there.",
            ReadFault::Size(_) =>
                "Pass the whole of it with nothing behind it, or correct its sizes.",
            ReadFault::Order(_) => "List each move once, by key, then by target.",
            ReadFault::Clash(_) => "Take the state out of one of the two sets.",
            ReadFault::TooLarge => "Use a machine or an automaton with fewer states.",
        })
    }
}

/// That a sheet is refused, what is wrong with it, and what to do.
#[derive(Clone, Copy)]
pub struct RefusedSheet {
    pub sheet: &'static str,
    pub fault: ReadFault,
}

impl fmt::Display for RefusedSheet {
    fn fmt<W: Write>(&self, f: &mut Formatter<W>) -> fmt::Result {
        let RefusedSheet { sheet, fault } = *self;
        let meaning = match fault {
            ReadFault::Short(_) => "it is shorter than its fixed fields",
            ReadFault::Field(_) => "a field is out of its range",
            ReadFault::Size(_) => "its length is not the one that its fields ask for",
            ReadFault::Entry(_) => "an entry is out of its range",
            ReadFault::Order(_) => "a move does not come after the move before it",
            ReadFault::Clash(_) => "a state is both forbidden and a goal",
            ReadFault::TooLarge => "the machine's states times the automaton's are above 256",
        };
        write!(f, "The {sheet} is refused: {meaning}. {}", Remedy(fault))
    }
}
