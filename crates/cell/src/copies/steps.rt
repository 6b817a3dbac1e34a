ghost use Rattle.std.specs.Prelude.{◌≡◌, ◌≤◌, length, Some};
ghost use Rattle.cell.specs.Logs.{own, signals_in, ranks_in, change_fault, changes_fault};
ghost use Rattle.cell.specs.Cells.{copied, counted, refused, Advanced, Taken, offering};

use crate::calls::{Offer, Report};
use crate::copies::{Copies, Standing};
use crate::faults::CellFault;
use crate::records::{choice_in, rank_in};
use reading::faults::check;
use reading::records::{NO_CHOICE, NO_RANK, Position};
use reading::sides::Sides;

/// A wait, counted on unless it ends at a goal.
fn counted(goal: bool, wait: u32) -> u32
    ensures { result ≡ counted goal wait }
{
    if goal { 0 } else { wait.saturating_add(1) }
}

impl Standing {
    /// Where a side stands.
    fn at(&self, side: u8) -> Position
        ensures state { result.state ≡ own side self.now.states }
        ensures phase { result.phase ≡ self.now.phase }
    {
        Position {
            state: self.states.own(side),
            phase: self.phase,
        }
    }

    /// Checks that a side can go over to its new record: it keeps the state in phase 0, at a rank that is not above the present one.
    fn check_change(&self, ranks: Sides<u16>, offer: Offer<'_>, side: u8) -> Result<(), CellFault>
        ensures { refused result ≡ change_fault self.now ranks (offering offer.entry) side }
    {
        let record = offer.records.own(side);
        let at = Position {
            state: self.states.own(side),
            phase: 0,
        };
        let rank = rank_in(record, at);
        let kept = choice_in(record, at) != NO_CHOICE || rank != NO_RANK;
        check(kept, CellFault::NotKept { side })?;
        check(rank <= ranks.own(side), CellFault::RankRises { side })
    }
}

impl Copies {
    /// The signals shown, by the records in force.
    pub(crate) fn signals(&self) -> Sides<u8>
        ensures { result ≡ signals_in (Some (copied self.now)) self.now.standing }
    {
        Sides {
            first: choice_in(self.records.first.bytes(), self.standing.at(0)),
            second: choice_in(self.records.second.bytes(), self.standing.at(1)),
        }
    }

    /// The ranks at the present positions, by the records in force.
    pub(crate) fn ranks(&self) -> Sides<u16>
        ensures { result ≡ ranks_in (Some (copied self.now)) self.now.standing }
    {
        Sides {
            first: rank_in(self.records.first.bytes(), self.standing.at(0)),
            second: rank_in(self.records.second.bytes(), self.standing.at(1)),
        }
    }

    /// Checks that both sides can go over to their new records.
    pub(crate) fn check_changes(&self, offer: Offer<'_>) -> Result<(), CellFault>
        ensures { refused result ≡ changes_fault (Some (copied self.now)) self.now.standing (offering offer.entry) }
    {
        let ranks = self.ranks();
        self.standing.check_change(ranks, offer, 0)?;
        self.standing.check_change(ranks, offer, 1)
    }

    /// Moves the machines to the states reported, the phase under the signals shown before, and the waits.
    pub(crate) fn advance(&mut self, report: Report, goals: Sides<bool>)
        ensures { Advanced report.states goals self.old self.new }
    {
        let shown = self.signals();
        let Standing { phase, waits, .. } = self.standing;
        self.standing.phase = self.table.next(phase, shown.first, shown.second);
        self.standing.states = report.states;
        self.standing.waits = Sides {
            first: counted(goals.first, waits.first),
            second: counted(goals.second, waits.second),
        };
    }

    /// Copies an offer, to go on from phase 0, and raises the largest bounds.
    pub(crate) fn take(&mut self, offer: Offer<'_>, bounds: Sides<u16>)
        requires first { length offer.records.first.now ≤ 6148 }
        requires second { length offer.records.second.now ≤ 6148 }
        ensures { Taken (offering offer.entry) bounds self.old self.new }
    {
        self.table = *offer.table;
        self.deal = *offer.deal;
        self.records.first.keep(offer.records.first);
        self.records.second.keep(offer.records.second);
        let largest = self.standing.bounds;
        self.standing.phase = 0;
        self.standing.bounds = Sides {
            first: largest.first.max(bounds.first),
            second: largest.second.max(bounds.second),
        };
    }
}
