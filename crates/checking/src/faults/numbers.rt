ghost use Rattle.std.specs.Prelude.{◌≡◌};
ghost use Rattle.std.specs.Option.{option_map, option_map_or};
ghost use Rattle.reading.specs.Faults.{numbers as read_numbers};
ghost use Rattle.checking.specs.Faults.{numbers, none};
ghost use Rattle.checking.specs.Solutions.{solve_number};
ghost use Rattle.checking.specs.Reach.{reach_number};
ghost use Rattle.checking.specs.Searching.{search_number, search_tries};

use crate::faults::{CheckFault, ReachFault, SearchFault, SolveFault};
use reading::faults::ReadFault;
use reading::records::Position;

/// Stands for a value that does not apply: a refusal is published as its number and four such values.
const NONE: u16 = 65_535;

// Published in numbers: 65,535 stands for what does not apply.
impl CheckFault {
    /// The refusal's number.
    pub fn number(&self) -> u8
        ensures { result ≡ (numbers self.now).number }
    {
        match *self {
            CheckFault::Reading(fault) => fault.number(),
            CheckFault::Sizes => 10,
            CheckFault::RecordSizes => 11,
            CheckFault::HalfKept(_) => 12,
            CheckFault::StartAbsent { .. } => 13,
            CheckFault::Forbidden(_) => 14,
            CheckFault::NotPromised(_) => 15,
            CheckFault::GoalRank(_) => 16,
            CheckFault::NoNext { .. } => 17,
            CheckFault::NextAbsent { .. } => 18,
            CheckFault::NotLower { .. } => 19,
        }
    }

    /// The fault of reading, if it is one: a question, and no failure.
    pub fn reading(&self) -> Option<ReadFault>
        ensures { option_map read_numbers result ≡ (numbers self.now).reading }
    {
        match *self {
            CheckFault::Reading(fault) => Some(fault),
            _ => None,
        }
    }

    /// The position that it is about, if there is one.
    fn at(&self) -> Option<Position>
        ensures state { option_map_or (λ at. at.state) result none ≡ (numbers self.now).state }
        ensures phase { option_map_or (λ at. at.phase) result none ≡ (numbers self.now).phase }
    {
        match *self {
            CheckFault::Reading(_) | CheckFault::Sizes | CheckFault::RecordSizes => None,
            CheckFault::StartAbsent { state } => Some(Position { state, phase: 0 }),
            CheckFault::HalfKept(at)
            | CheckFault::Forbidden(at)
            | CheckFault::NotPromised(at)
            | CheckFault::GoalRank(at)
            | CheckFault::NoNext { at, .. }
            | CheckFault::NextAbsent { at, .. }
            | CheckFault::NotLower { at, .. } => Some(at),
        }
    }

    /// The state that it is about; 65,535 where there is none.
    pub fn state(&self) -> u16
        ensures { result ≡ (numbers self.now).state }
    {
        self.at().map_or(NONE, |at| at.state)
    }

    /// The phase that it is about; 65,535 where there is none.
    pub fn phase(&self) -> u16
        ensures { result ≡ (numbers self.now).phase }
    {
        self.at().map_or(NONE, |at| at.phase.into())
    }

    /// The partner signal that it is about; 65,535 where there is none.
    pub fn partner(&self) -> u16
        ensures { result ≡ (numbers self.now).partner }
    {
        match *self {
            CheckFault::NoNext { partner, .. }
            | CheckFault::NextAbsent { partner, .. }
            | CheckFault::NotLower { partner, .. } => partner.into(),
            _ => NONE,
        }
    }

    /// The next state that it is about; 65,535 where there is none.
    pub fn next(&self) -> u16
        ensures { result ≡ (numbers self.now).next }
    {
        match *self {
            CheckFault::NextAbsent { next, .. } | CheckFault::NotLower { next, .. } => next,
            _ => NONE,
        }
    }
}

impl SolveFault {
    /// The refusal's number.
    pub fn number(&self) -> u8
        ensures { result ≡ solve_number self.now }
    {
        match *self {
            SolveFault::Sizes => 10,
            SolveFault::Buffer => 22,
            SolveFault::NoController => 23,
        }
    }
}

impl ReachFault {
    /// The refusal's number.
    pub fn number(&self) -> u8
        ensures { result ≡ reach_number self.now }
    {
        match *self {
            ReachFault::Sizes => 10,
            ReachFault::Buffer => 22,
        }
    }
}

impl SearchFault {
    /// The refusal's number.
    pub fn number(&self) -> u8
        ensures { result ≡ search_number self.now }
    {
        match *self {
            SearchFault::Sizes => 10,
            SearchFault::Allowance => 24,
            SearchFault::TooMany => 25,
            SearchFault::Untried(_) => 26,
            SearchFault::NoDeal(_) => 27,
        }
    }

    /// How many candidates were tried, if any were.
    pub fn tries(&self) -> Option<u16>
        ensures { result ≡ search_tries self.now }
    {
        match *self {
            SearchFault::Untried(tries) | SearchFault::NoDeal(tries) => Some(tries),
            SearchFault::Sizes | SearchFault::Allowance | SearchFault::TooMany => None,
        }
    }
}
