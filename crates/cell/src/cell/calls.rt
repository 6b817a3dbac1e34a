ghost use Rattle.std.specs.Prelude.{◌≡◌, is_ok, IfOk, IfErr, Decides};
ghost use Rattle.checking.specs.Checks.{Ranked};
ghost use Rattle.cell.specs.Logs.{reported, offered, to_report, to_offer, own, running_fault, side_fault};
ghost use Rattle.cell.specs.Law.{Acceptable};
ghost use Rattle.cell.specs.Cells.{games, seen, shown_running, refused, told_result, offering, Heard, Passed};

use crate::calls::{Offer, Report};
use crate::cell::Cell;
use crate::copies::Mode;
use crate::faults::CellFault;
use checking::check::check as check_plan;
use games::machine::{Game, Machine};
use reading::faults::check;
use reading::records::NO_CHOICE;
use reading::sides::Sides;

/// Checks a side's record of an offer: the bound of a ranked controller.
fn check_record<G: Game>(game: &G, offer: Offer<'_>, side: u8) -> Result<u16, CellFault>
    ensures first { refused result ≡ side_fault (G.Machine.meaning game.now) (G.Game.marks game.now) (offering offer.entry) side }
    ensures ranked { Decides (is_ok result) (Ranked (G.Machine.meaning game.now) (G.Game.marks game.now) offer.entry.table.now offer.entry.deal.now side (own side (offering offer.entry).records)) }
    ensures passed { IfOk result (Passed (G.Machine.meaning game.now) (G.Game.marks game.now) (offering offer.entry) side) }
{
    let Offer {
        table,
        deal,
        records,
    } = offer;
    check_plan(game, table, deal, side, records.own(side)).map_err(|fault| CellFault::Checking {
        fault,
        side,
    })
}

impl<A: Game + Drop, B: Game + Drop> Cell<A, B> {
    /// Brings an offer into force if each record is a ranked controller for its side and, when there is an offer in force, each side can
    /// go over to its new record. Answers both bounds.
    pub fn offer(&mut self, offer: Offer<'_>) -> Result<Sides<u16>, CellFault>
        ensures heard { Heard A.Machine.meaning A.Game.marks B.Machine.meaning B.Game.marks self.old (offered (offering offer.entry)) (to_offer (told_result result)) self.new }
        ensures exactly { Decides (is_ok result) (Acceptable (games A.Machine.meaning A.Game.marks B.Machine.meaning B.Game.marks self.old) (seen self.old) (offering offer.entry)) }
        ensures unchanged { IfErr result (λ _. self.new ≡ self.old) }
    {
        let bounds = Sides {
            first: check_record(&self.first, offer, 0)?,
            second: check_record(&self.second, offer, 1)?,
        };
        match (self.mode, offer) {
            (Mode::Idle, offer) => {
                self.copies.take(offer, bounds);
                self.mode = Mode::Running;
            }
            (Mode::Running, offer) => {
                self.copies.check_changes(offer)?;
                self.copies.take(offer, bounds);
            }
        }
        Ok(bounds)
    }

    /// Checks that each machine, in a running cell, has a choice and can move to the state that is reported.
    fn check_moves(&self, report: Report) -> Result<(), CellFault>
        ensures { refused result ≡ running_fault (games A.Machine.meaning A.Game.marks B.Machine.meaning B.Game.marks self.now) (shown_running self.now.copies) report.states }
    {
        let shown = self.copies.signals();
        check(shown.first != NO_CHOICE, CellFault::NoChoice { side: 0 })?;
        check(shown.second != NO_CHOICE, CellFault::NoChoice { side: 1 })?;
        let (at, to) = (self.copies.standing.states, report.states);
        let first = self
            .first
            .may_move(at.first, shown.first, shown.second, to.first);
        check(first, CellFault::NoSuchMove { side: 0 })?;
        let second = self
            .second
            .may_move(at.second, shown.second, shown.first, to.second);
        check(second, CellFault::NoSuchMove { side: 1 })
    }

    /// Moves both machines to the states reported, if they can move there under the signals shown. Answers the signals shown next.
    pub fn report(&mut self, report: Report) -> Result<Sides<u8>, CellFault>
        ensures heard { Heard A.Machine.meaning A.Game.marks B.Machine.meaning B.Game.marks self.old (reported report.states) (to_report (told_result result)) self.new }
        ensures unchanged { IfErr result (λ _. self.new ≡ self.old) }
    {
        match (self.mode, report) {
            (Mode::Idle, _) => Err(CellFault::Idle),
            (Mode::Running, report) => {
                self.check_moves(report)?;
                let goals = Sides {
                    first: self.first.goal(report.states.first),
                    second: self.second.goal(report.states.second),
                };
                self.copies.advance(report, goals);
                Ok(self.copies.signals())
            }
        }
    }
}
