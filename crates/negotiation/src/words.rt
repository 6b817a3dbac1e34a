use crate::refusals::Refusal;
use bays::words::BaySentence;
use checking::faults::SearchFault;
use std::fmt::{self, Formatter, Write};

/// Why the search answers no deal, and what to do.
fn reason(fault: SearchFault) -> &'static str {
    match fault {
        SearchFault::Sizes => {
            "The signals of both machines and of the phase table do not fit together. Use a table with the signals of both."
        }
        SearchFault::Allowance | SearchFault::Untried(_) => {
            "Not every deal was tried. Allow more tries, 65,535 at most."
        }
        SearchFault::TooMany => {
            "There are more than 65,535 deals to try. Use a table with fewer phases or signals."
        }
        SearchFault::NoDeal(_) => {
            "No deal brings both machines to their goals again and again. Ease a rule sheet, or give a machine more moves."
        }
    }
}

/// A refusal with number, place and meaning, and what to do: one line.
#[derive(Clone, Copy)]
pub struct Explained(pub Refusal);

impl fmt::Display for Explained {
    fn fmt<W: Write>(&self, f: &mut Formatter<W>) -> fmt::Result {
        match self.0 {
            Refusal::Bay(fault) => write!(f, "{fault}: {}", BaySentence(fault)),
            Refusal::Search(fault) => write!(f, "{fault}: {}", reason(fault)),
        }
    }
}
