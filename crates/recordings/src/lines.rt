ghost use Rattle.std.specs.Prelude.{Some};
ghost use Rattle.reading.specs.Faults.{numbers as read_numbers};
ghost use Rattle.games.specs.Signings.{numbers as sign_numbers};
ghost use Rattle.cell.specs.Cells.{told};
ghost use Rattle.cell.specs.Faults.{numbers};
ghost use Rattle.recordings.specs.Lines.{line, offer_refusal, unread_line, unsigned_line};

use cell::calls::Answer;
use cell::faults::CellFault;
use checking::faults::CheckFault;
use games::deal::signing::Unsigned;
use reading::faults::ReadFault;
use std::fmt::{self, Formatter, Write};

/// Stands for a value that does not apply.
const NONE: u16 = 65_535;

/// Stands for neither side.
const NEITHER: u8 = 2;

/// Why an offer was refused, in print.
#[derive(Clone, Copy)]
struct OfferRefusal(CellFault);

impl fmt::Display for OfferRefusal {
    ghost output = { λ x. Some (offer_refusal (numbers x.0)) };

    fn fmt<W: Write>(&self, f: &mut Formatter<W>) -> fmt::Result {
        let fault = self.0;
        let (number, side) = (fault.number(), fault.side());
        let (state, phase) = (fault.state(), fault.phase());
        let (partner, next) = (fault.partner(), fault.next());
        match fault.reading() {
            Some(read) => write!(
                f,
                "offer refused {number} side {side} byte {}",
                read.place()
            ),
            None => write!(
                f,
                "offer refused {number} side {side} at {state} {phase} {partner} {next}"
            ),
        }
    }
}

/// An answer of a cell, in print.
#[derive(Clone, Copy)]
pub struct AnswerLine(pub Answer);

impl fmt::Display for AnswerLine {
    ghost output = { λ x. Some (line (told x.0)) };

    fn fmt<W: Write>(&self, f: &mut Formatter<W>) -> fmt::Result {
        match self.0 {
            Answer::Offered(Ok(bounds)) => {
                write!(f, "offer bounds {} {}", bounds.first, bounds.second)
            }
            Answer::Offered(Err(fault)) => write!(f, "{}", OfferRefusal(fault)),
            Answer::Reported(Ok(shown)) => {
                write!(f, "report signals {} {}", shown.first, shown.second)
            }
            Answer::Reported(Err(fault)) => {
                write!(f, "report refused {} side {}", fault.number(), fault.side())
            }
            Answer::States(states) => write!(f, "states {} {}", states.first, states.second),
            Answer::Phase(phase) => write!(f, "phase {phase}"),
            Answer::Waits(waits) => write!(f, "waits {} {}", waits.first, waits.second),
            Answer::Signals(shown) => write!(f, "signals {} {}", shown.first, shown.second),
            Answer::Ranks(ranks) => write!(f, "ranks {} {}", ranks.first, ranks.second),
        }
    }
}

/// A phase table that cannot be read, in print.
#[derive(Clone, Copy)]
pub struct UnreadLine(pub ReadFault);

impl fmt::Display for UnreadLine {
    ghost output = { λ x. Some (unread_line (read_numbers x.0)) };

    fn fmt<W: Write>(&self, f: &mut Formatter<W>) -> fmt::Result {
        let fault = CheckFault::Reading(self.0);
        let refusal = OfferRefusal(CellFault::Checking {
            fault,
            side: NEITHER,
        });
        write!(f, "{refusal}")
    }
}

/// Terms that make no deal, in print.
#[derive(Clone, Copy)]
pub struct UnsignedLine(pub Unsigned);

impl fmt::Display for UnsignedLine {
    ghost output = { λ x. Some (unsigned_line (sign_numbers x.0)) };

    fn fmt<W: Write>(&self, f: &mut Formatter<W>) -> fmt::Result {
        let (number, phase, side) = (self.0.number(), self.0.phase(), self.0.side());
        if phase == NONE {
            write!(f, "unsigned {number} side {side}")
        } else {
            write!(f, "unsigned {number} phase {phase} side {side}")
        }
    }
}
