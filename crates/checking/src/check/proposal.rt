ghost use Rattle.std.specs.Prelude.{◌≡◌};
ghost use Rattle.reading.specs.Firsts.{first_below};
ghost use Rattle.reading.specs.Records.{parts_of};
ghost use Rattle.checking.specs.Arenas.{playing};
ghost use Rattle.checking.specs.Faults.{refused};
ghost use Rattle.checking.specs.Checks.{put, sized, keeps, next_fault, partner_fault, kept_fault, position_fault, positions_fault, plan_fault};

use crate::faults::CheckFault;
use crate::seat::Seat;
use games::machine::{Game, Machine};
use reading::faults::check;
use reading::records::{NO_CHOICE, NO_RANK, Position, Record};

/// A plan put forward to be checked, for a seat.
#[derive_where(Clone, Copy)]
pub(crate) struct Proposal<'a, G: Machine> {
    pub(crate) seat: Seat<'a, G>,
    pub(crate) plan: Record<'a>,
}

impl<G: Game> Proposal<'_, G> {
    /// Whether the plan is of the sizes of game and table.
    pub(crate) fn sized(&self) -> bool
        ensures { result ≡ sized (G.Machine.meaning self.now.seat.game.now) self.now.seat.table.now (parts_of self.now.plan) }
    {
        let (seat, plan) = (&self.seat, &self.plan);
        plan.states == seat.game.states()
            && plan.phases == seat.table.phases()
            && plan.signals == seat.game.own()
    }

    /// Whether the plan keeps a position: not if choice and rank are both absent.
    fn keeps(&self, at: Position) -> bool
        ensures { result ≡ keeps (put self.now) at.state at.phase }
    {
        !(self.plan.choice(at) == NO_CHOICE && self.plan.rank(at) == NO_RANK)
    }

    /// Checks a next state.
    fn check_next(&self, at: Position, partner: u8, next: u16) -> Result<(), CheckFault>
        ensures { refused result ≡ next_fault (playing G.Machine.meaning G.Game.marks self.now.seat) (put self.now) at.state at.phase partner next }
    {
        let own = self.plan.choice(at);
        if !self.seat.game.may_move(at.state, own, partner, next) {
            return Ok(());
        }
        let phase = self.seat.follow(at.phase, own, partner);
        let then = Position { state: next, phase };
        let kept = self.keeps(then);
        check(kept, CheckFault::NextAbsent { at, partner, next })?;
        let lower = self.seat.game.goal(at.state) || self.plan.rank(then) < self.plan.rank(at);
        check(lower, CheckFault::NotLower { at, partner, next })
    }

    /// Checks next state by next state.
    fn check_nexts(&self, at: Position, partner: u8) -> Result<(), CheckFault>
        ensures { refused result ≡ first_below (G.Machine.meaning self.now.seat.game.now).states (next_fault (playing G.Machine.meaning G.Game.marks self.now.seat) (put self.now) at.state at.phase partner) }
    {
        for next in 0..self.seat.game.states() {
            self.check_next(at, partner, next)?;
        }
        Ok(())
    }

    /// Checks under a partner signal, if it is relied on.
    fn check_partner(&self, at: Position, partner: u8) -> Result<(), CheckFault>
        ensures { refused result ≡ partner_fault (playing G.Machine.meaning G.Game.marks self.now.seat) (put self.now) at.state at.phase partner }
    {
        if !self.seat.relied(at.phase, partner) {
            return Ok(());
        }
        let goes_on = self.seat.has_next(at.state, self.plan.choice(at), partner);
        check(goes_on, CheckFault::NoNext { at, partner })?;
        self.check_nexts(at, partner)
    }

    /// Checks partner signal by partner signal.
    fn check_partners(&self, at: Position) -> Result<(), CheckFault>
        ensures { refused result ≡ first_below (G.Machine.meaning self.now.seat.game.now).partner (partner_fault (playing G.Machine.meaning G.Game.marks self.now.seat) (put self.now) at.state at.phase) }
    {
        for partner in 0..self.seat.game.partner() {
            self.check_partner(at, partner)?;
        }
        Ok(())
    }

    /// Checks what a kept position says for itself: its state, its choice, its rank.
    fn check_kept(&self, at: Position) -> Result<(), CheckFault>
        ensures { refused result ≡ kept_fault (playing G.Machine.meaning G.Game.marks self.now.seat) (put self.now) at.state at.phase }
    {
        let forbidden = self.seat.game.forbidden(at.state);
        check(!forbidden, CheckFault::Forbidden(at))?;
        let promised = self.seat.promised(at.phase, self.plan.choice(at));
        check(promised, CheckFault::NotPromised(at))?;
        let fits = self.seat.game.goal(at.state) == (self.plan.rank(at) == 0);
        check(fits, CheckFault::GoalRank(at))
    }

    /// Checks a position.
    fn check_position(&self, at: Position) -> Result<(), CheckFault>
        ensures { refused result ≡ position_fault (playing G.Machine.meaning G.Game.marks self.now.seat) (put self.now) at.state at.phase }
    {
        let no_choice = self.plan.choice(at) == NO_CHOICE;
        let no_rank = self.plan.rank(at) == NO_RANK;
        check(no_choice == no_rank, CheckFault::HalfKept(at))?;
        if no_choice {
            return Ok(());
        }
        self.check_kept(at)?;
        self.check_partners(at)
    }

    /// Checks position by position.
    fn check_positions(&self) -> Result<(), CheckFault>
        ensures { refused result ≡ positions_fault (playing G.Machine.meaning G.Game.marks self.now.seat) (put self.now) }
    {
        for state in 0..self.seat.game.states() {
            for phase in 0..self.seat.table.phases() {
                self.check_position(Position { state, phase })?;
            }
        }
        Ok(())
    }

    /// Checks the start, then every position: a fault is the first.
    pub(crate) fn check(&self) -> Result<(), CheckFault>
        ensures { refused result ≡ plan_fault (playing G.Machine.meaning G.Game.marks self.now.seat) (put self.now) }
    {
        let start = self.seat.start();
        let starts = self.keeps(start);
        check(starts, CheckFault::StartAbsent { state: start.state })?;
        self.check_positions()
    }
}
