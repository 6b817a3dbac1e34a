use crate::cases::Case;
use crate::refusals::Refusal;
use bays::words::TermsSentence;
use checking::faults::CheckFault;
use games::watched::sheets::SheetsFault;
use reading::faults::ReadFault;
use reading::phase_table::PhaseTable;
use reading::records::{NO_CHOICE, NO_RANK, Position, Record};
use reading::words::RefusedSheet;
use std::fmt::{self, Formatter, Write};

const SIZES: &str = "The side or the sizes of machine, table and deal do not fit";

const RECORD_SIZES: &str = "The sizes of the record do not fit machine and table";

/// What to do about a record that is no ranked controller; that of one that cannot be read stands with its fault.
fn remedy(fault: CheckFault) -> Option<&'static str> {
    Some(match fault {
        CheckFault::Reading(_) => return None,
        CheckFault::Sizes =>
            "Name side 0 or 1, and a machine and a table whose signals are the same.",
        CheckFault::RecordSizes => "Write the record for this machine and this table.",
        CheckFault::HalfKept(_) => "Write both, or neither: choice 255 and rank 65,535.",
        CheckFault::StartAbsent { .. } => "Write a choice and a rank for it.",
        CheckFault::Forbidden(_) => "Leave it out: choice 255 and rank 65,535.",
        CheckFault::NotPromised(_) => "Choose a signal that is promised in this phase.",
        CheckFault::GoalRank(_) => "Rank each goal 0, and every other state above 0.",
        CheckFault::NoNext { .. } =>
            "Choose a signal under which the machine can move, or rely on less.",
        CheckFault::NextAbsent { .. } => "Keep that position, or choose another signal.",
        CheckFault::NotLower { .. } => "Rank that position lower, or this one higher.",
    })
}

/// That one of the four files is refused.
fn write_refused<W: Write>(
    f: &mut Formatter<W>,
    sheet: &'static str,
    fault: ReadFault,
) -> fmt::Result {
    write!(f, "{}", RefusedSheet { sheet, fault })
}

/// The position that the rest of a sentence is about.
#[derive(Clone, Copy)]
struct Place(Position);

impl fmt::Display for Place {
    fn fmt<W: Write>(&self, f: &mut Formatter<W>) -> fmt::Result {
        let Position { state, phase } = self.0;
        write!(f, "state {state}, phase {phase}:")
    }
}

/// A position at which the partner shows a signal.
#[derive(Clone, Copy)]
struct Tick {
    at: Position,
    partner: u8,
}

impl fmt::Display for Tick {
    fn fmt<W: Write>(&self, f: &mut Formatter<W>) -> fmt::Result {
        let place = Place(self.at);
        let partner = self.partner;
        write!(f, "{place} under partner signal {partner}")
    }
}

/// What is wrong with a refused case, and what to do.
#[derive(Clone, Copy)]
pub(crate) struct Sentence<'a> {
    pub(crate) case: &'a Case<'a>,
    pub(crate) refusal: Refusal,
}

impl fmt::Display for Sentence<'_> {
    fn fmt<W: Write>(&self, f: &mut Formatter<W>) -> fmt::Result {
        match self.refusal {
            Refusal::Sheets(SheetsFault::Machine(fault)) => write_refused(
                f,
                "machine sheet",
                fault,
            ),
            Refusal::Sheets(SheetsFault::Rule(fault)) => write_refused(f, "rule sheet", fault),
            Refusal::Table(fault) => write_refused(f, "phase table", fault),
            Refusal::Terms(fault) => TermsSentence(fault).fmt(f),
            Refusal::Check(fault) => {
                self.write_fault(f, fault)?;
                match remedy(fault) {
                    Some(remedy) => write!(f, ". {remedy}"),
                    None => Ok(()),
                }
            }
        }
    }
}

impl Sentence<'_> {
    // Two questions in the format's own words, as a record has them.

    /// The record's choice at a position; none in a record that is refused.
    fn choice(&self, at: Position) -> u8 {
        Record::read(self.case.record).map_or(NO_CHOICE, |plan| plan.choice(at))
    }

    /// The record's rank at a position; none in a record that is refused.
    fn rank(&self, at: Position) -> u16 {
        Record::read(self.case.record).map_or(NO_RANK, |plan| plan.rank(at))
    }

    /// The phase after a tick, by the record's choice.
    fn phase_after(&self, tick: Tick) -> u8 {
        let Tick { at, partner } = tick;
        let own = self.choice(at);
        // a table that is refused has no phase after, and nothing is checked under it
        PhaseTable::parse(self.case.table).map_or(
            0,
            |table| table.follow(self.case.side, at.phase, own, partner),
        )
    }

    /// A rank that does not fit its state: 0 is for goals alone.
    fn write_rank<W: Write>(&self, f: &mut Formatter<W>, at: Position) -> fmt::Result {
        let place = Place(at);
        match self.rank(at) {
            0 => write!(f, "{place} the rank 0 is not at a goal"),
            rank => write!(f, "{place} a goal has rank {rank}"),
        }
    }

    /// What a check finds.
    fn write_fault<W: Write>(&self, f: &mut Formatter<W>, fault: CheckFault) -> fmt::Result {
        match fault {
            CheckFault::Reading(fault) => write_refused(f, "record", fault),
            CheckFault::Sizes => f.write_str(SIZES),
            CheckFault::RecordSizes => f.write_str(RECORD_SIZES),
            CheckFault::HalfKept(at) => {
                write!(f, "{} only one of choice and rank is absent", Place(at))
            }
            CheckFault::StartAbsent { state } => {
                let start = Place(Position { state, phase: 0 });
                write!(f, "{start} the start is not kept")
            }
            CheckFault::Forbidden(at) => {
                write!(f, "{} the state is forbidden, yet kept", Place(at))
            }
            CheckFault::NotPromised(at) => {
                let choice = self.choice(at);
                write!(f, "{} the choice {choice} is not promised", Place(at))
            }
            CheckFault::GoalRank(at) => self.write_rank(f, at),
            CheckFault::NoNext { at, partner } => {
                write!(f, "{} there is no next state", Tick { at, partner })
            }
            CheckFault::NextAbsent { at, partner, next } => {
                let tick = Tick { at, partner };
                let phase = self.phase_after(tick);
                write!(
                    f,
                    "{tick} the next state {next} is not kept in phase {phase}"
                )
            }
            CheckFault::NotLower { at, partner, next } => {
                self.write_ranks(f, Tick { at, partner }, next)
            }
        }
    }

    /// A next rank beside the one that it should be below.
    fn write_ranks<W: Write>(&self, f: &mut Formatter<W>, tick: Tick, next: u16) -> fmt::Result {
        let rank = self.rank(Position {
            state: next,
            phase: self.phase_after(tick),
        });
        let bar = self.rank(tick.at);
        write!(
            f,
            "{tick} the next state {next} has rank {rank}, not below {bar}"
        )
    }
}
