ghost use Rattle.std.specs.Prelude.{Some, IfOk, string_bytes};
ghost use Rattle.planning.specs.Plans.{line, Tells};

use bays::faults::BayFault;
use bays::words::{BaySentence, TermsSentence};
use games::deal::signing::Unsigned;
use std::alloc::{AllocError, Global};
use std::error::Error;
use std::fmt;

/// Why nothing can be planned: what is refused, with its fault.
#[derive(Clone, Copy, PartialEq, Eq, Debug)]
pub enum Refusal {
    Bay(BayFault),
    Terms(Unsigned),
}

impl fmt::Display for Refusal {
    ghost output = { λ x. Some (line x) };

    fn fmt<W: fmt::Write>(&self, f: &mut fmt::Formatter<W>) -> fmt::Result {
        match self {
            Refusal::Bay(fault) => write!(f, "{fault}"),
            Refusal::Terms(fault) => write!(f, "{fault}"),
        }
    }
}

impl Error for Refusal {}

/// What is refused, as a sentence.
#[derive(Clone, Copy)]
struct Sentence(Refusal);

impl fmt::Display for Sentence {
    fn fmt<W: fmt::Write>(&self, f: &mut fmt::Formatter<W>) -> fmt::Result {
        match self.0 {
            Refusal::Bay(fault) => write!(f, "{}", BaySentence(fault)),
            Refusal::Terms(fault) => write!(f, "{}", TermsSentence(fault)),
        }
    }
}

impl Refusal {
    /// The refusal, and a line that says what is refused.
    pub fn text(&self, heap: Global) -> Result<String, AllocError>
        ensures { IfOk result (λ text. Tells (line self.now) (string_bytes text)) }
    {
        let why = Sentence(*self).to_string(heap)?;
        format!(in heap; "{self}\n{why}\n")
    }
}
