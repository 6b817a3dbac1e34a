ghost use Rattle.std.specs.Prelude.{◌≡◌, Some};
ghost use Rattle.review.specs.Verdicts.{line};

use checking::faults::CheckFault;
use games::deal::signing::Unsigned;
use games::watched::sheets::SheetsFault;
use reading::faults::ReadFault;
use std::error::Error;
use std::fmt;

/// Why a case has no bound: what is refused, with its fault.
#[derive(Clone, Copy, PartialEq, Eq, Debug)]
pub enum Refusal {
    Sheets(SheetsFault),
    Table(ReadFault),
    Terms(Unsigned),
    Check(CheckFault),
}

impl fmt::Display for Refusal {
    ghost output = { λ x. Some (line x) };

    fn fmt<W: fmt::Write>(&self, f: &mut fmt::Formatter<W>) -> fmt::Result {
        match self {
            Refusal::Sheets(fault) => write!(f, "{fault}"),
            Refusal::Table(fault) => write!(f, "{fault}"),
            Refusal::Terms(fault) => write!(f, "{fault}"),
            Refusal::Check(CheckFault::Reading(fault)) => write!(f, "{fault}"),
            Refusal::Check(fault) => write!(f, "{fault}"),
        }
    }
}

impl Error for Refusal {}
