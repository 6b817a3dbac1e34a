ghost use Rattle.std.specs.Prelude.{◌≡◌};
ghost use Rattle.reading.specs.Firsts.{some_below};
ghost use Rattle.checking.specs.Arenas.{promised, relied, follow, suits};
ghost use Rattle.checking.specs.Checks.{at};

use crate::seat::Seat;
use games::machine::Machine;
use reading::records::Position;

impl<G> Seat<'_, G> {
    /// Whether the side promises a signal of its own in a phase.
    pub(crate) fn promised(&self, phase: u8, signal: u8) -> bool
        ensures { result ≡ promised self.now.deal.now self.now.side phase signal }
    {
        self.deal.promises(self.side, phase, signal)
    }

    /// Whether the side relies on a signal of its partner in a phase.
    pub(crate) fn relied(&self, phase: u8, signal: u8) -> bool
        ensures { result ≡ relied self.now.deal.now self.now.side phase signal }
    {
        self.deal.relies(self.side, phase, signal)
    }

    /// The phase after a phase, the side's own signal and its partner's.
    pub(crate) fn follow(&self, phase: u8, own: u8, partner: u8) -> u8
        ensures { result ≡ follow self.now.table.now self.now.side phase own partner }
    {
        self.table.follow(self.side, phase, own, partner)
    }
}

impl<G: Machine> Seat<'_, G> {
    /// Whether there is such a side, and machine, table and deal are of the same sizes.
    pub(crate) fn suits(&self) -> bool
        ensures { result ≡ suits (G.Machine.meaning self.now.game.now) self.now.table.now self.now.deal.now self.now.side }
    {
        let sizes = self.table.sizes();
        self.side <= 1
            && sizes == self.deal.sizes()
            && self.game.own() == sizes.signals.own(self.side)
            && self.game.partner() == sizes.signals.partner(self.side)
    }

    /// Where it starts: in phase 0.
    pub(crate) fn start(&self) -> Position
        ensures { result ≡ at (G.Machine.meaning self.now.game.now).start 0 }
    {
        Position {
            state: self.game.start(),
            phase: 0,
        }
    }

    /// Whether there is a next state under two signals.
    pub(crate) fn has_next(&self, state: u16, own: u8, partner: u8) -> bool
        ensures { result ≡ some_below (G.Machine.meaning self.now.game.now).states ((G.Machine.meaning self.now.game.now).move state own partner) }
    {
        (0..self.game.states()).any(|next| self.game.may_move(state, own, partner, next))
    }
}
