use crate::faults::BayFault;
use games::deal::signing::Unsigned;
use games::watched::sheets::SheetsFault;
use reading::words::RefusedSheet;
use std::fmt::{self, Formatter, Write};

/// Whose terms are not as described, or who promises too much, and where; and what to do.
#[derive(Clone, Copy)]
pub struct TermsSentence(pub Unsigned);

impl fmt::Display for TermsSentence {
    fn fmt<W: Write>(&self, f: &mut Formatter<W>) -> fmt::Result {
        match self.0 {
            Unsigned::NotTerms { side } => {
                write!(f, "The terms of side {side} are not as described. ")?;
                f.write_str(
                    "Name for each phase some of the signals that there are, and nothing else.",
                )
            }
            Unsigned::TooFar { phase, side } => {
                let other = if side == 0 { 1 } else { 0 };
                write!(
                    f,
                    "In phase {phase} side {side} promises more than side {other} relies on. "
                )?;
                f.write_str("Let it promise less there, or the other rely on more.")
            }
        }
    }
}

/// Which part of an input is refused, what is wrong with it, and what to do.
#[derive(Clone, Copy)]
pub struct BaySentence(pub BayFault);

impl fmt::Display for BaySentence {
    fn fmt<W: Write>(&self, f: &mut Formatter<W>) -> fmt::Result {
        let (sheet, fault) = match self.0 {
            BayFault::Lengths(_) => {
                f.write_str("Five lengths and the five sheets do not make up the input. ")?;
                return f.write_str("Pass all of them and nothing else, at most 40,000 bytes.");
            }
            BayFault::First(SheetsFault::Machine(fault)) => ("machine sheet of side 0", fault),
            BayFault::First(SheetsFault::Rule(fault)) => ("rule sheet of side 0", fault),
            BayFault::Second(SheetsFault::Machine(fault)) => ("machine sheet of side 1", fault),
            BayFault::Second(SheetsFault::Rule(fault)) => ("rule sheet of side 1", fault),
            BayFault::Table(fault) => ("phase table", fault),
        };
        write!(f, "{}", RefusedSheet { sheet, fault })
    }
}
