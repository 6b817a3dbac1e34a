mod numbers;

ghost use Rattle.std.specs.Prelude.{◌≡◌, ◌++◌, Some, codes, decimal};
ghost use Rattle.checking.specs.declared.faults.CheckFault.TheVariants.{Reading};
ghost use Rattle.checking.specs.Faults.{numbers};
ghost use Rattle.checking.specs.Solutions.{solve_number};
ghost use Rattle.checking.specs.Reach.{reach_number};
ghost use Rattle.checking.specs.Searching.{search_number};

use reading::faults::ReadFault;
use reading::records::Position;
use std::error::Error;
use std::fmt;

/// Why a record is no ranked controller, with what the fault is about.
#[derive(Clone, Copy, PartialEq, Eq, Debug)]
pub enum CheckFault {
    /// The bytes are no record.
    Reading(ReadFault),
    /// There is no such side, or sizes of game, table and deal differ.
    Sizes,
    /// Sizes of the record and of game or table differ.
    RecordSizes,
    /// Only one of choice and rank is absent.
    HalfKept(Position),
    /// The start is not kept in phase 0.
    StartAbsent {
        state: u16,
    },
    /// A kept state is forbidden.
    Forbidden(Position),
    /// The choice is not promised.
    NotPromised(Position),
    /// The rank is 0 elsewhere than at a goal, or a goal's is not.
    GoalRank(Position),
    /// Under a partner signal relied on there is no next state.
    NoNext {
        at: Position,
        partner: u8,
    },
    /// A next position is not kept.
    NextAbsent {
        at: Position,
        partner: u8,
        next: u16,
    },
    /// A next rank is not lower.
    NotLower {
        at: Position,
        partner: u8,
        next: u16,
    },
}

impl From<ReadFault> for CheckFault {
    ghost from_gives = { λ f r. r ≡ Reading f };

    fn from(fault: ReadFault) -> CheckFault {
        CheckFault::Reading(fault)
    }
}

impl fmt::Display for CheckFault {
    ghost output = { λ x. Some (codes "refused " ++ decimal (numbers x).number) };

    fn fmt<W: fmt::Write>(&self, f: &mut fmt::Formatter<W>) -> fmt::Result {
        let number = self.number();
        write!(f, "refused {number}")
    }
}

impl Error for CheckFault {}

// Each fault prints its number in a line of its own impl: a trait of refusals would need the same lines.

/// Why there is no solved record.
#[derive(Clone, Copy, PartialEq, Eq, Debug)]
pub enum SolveFault {
    /// There is no such side, or sizes of game, table and deal differ.
    Sizes,
    /// The buffer has not the length of a record for game and table.
    Buffer,
    /// There is no ranked controller.
    NoController,
}

impl fmt::Display for SolveFault {
    ghost output = { λ x. Some (codes "refused " ++ decimal (solve_number x)) };

    fn fmt<W: fmt::Write>(&self, f: &mut fmt::Formatter<W>) -> fmt::Result {
        write!(f, "refused {}", self.number())
    }
}

impl Error for SolveFault {}

/// Why the reached positions are not told.
#[derive(Clone, Copy, PartialEq, Eq, Debug)]
pub enum ReachFault {
    /// There is no such side, or sizes of game, table and deal differ.
    Sizes,
    /// The buffer has not a byte for each position.
    Buffer,
}

impl fmt::Display for ReachFault {
    ghost output = { λ x. Some (codes "refused " ++ decimal (reach_number x)) };

    fn fmt<W: fmt::Write>(&self, f: &mut fmt::Formatter<W>) -> fmt::Result {
        let refusal = self.number();
        write!(f, "refused {refusal}")
    }
}

impl Error for ReachFault {}

/// Why searching answers no deal; the two refusals after candidates were tried carry the tries.
#[derive(Clone, Copy, PartialEq, Eq, Debug)]
pub enum SearchFault {
    /// Sizes of the games and of the table differ.
    Sizes,
    /// The allowance of tries is not from 1 to 65,535.
    Allowance,
    /// There are more than 65,535 candidates.
    TooMany,
    /// None of the candidates allowed is workable, and more remain.
    Untried(u16),
    /// No candidate at all is workable.
    NoDeal(u16),
}

impl fmt::Display for SearchFault {
    ghost output = { λ x. Some (codes "refused " ++ decimal (search_number x)) };

    fn fmt<W: fmt::Write>(&self, f: &mut fmt::Formatter<W>) -> fmt::Result {
        let refused = self.number();
        write!(f, "refused {refused}")
    }
}

impl Error for SearchFault {}
