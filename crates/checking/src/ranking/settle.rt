ghost use Rattle.std.specs.Prelude.{◌<◌, ◌≡◌, ◌≤◌, true, false, Decides};
ghost use Rattle.checking.specs.Snapshots.{played};
ghost use Rattle.checking.specs.Solving.{ranks_in, choices_in, zeros, Attracted, Inside, Least, Stable, Target, Renewed};

use crate::ranking::{ABSENT, Entry, Ranking};
use crate::seat::Seat;
use crate::snapshot::Snapshot;
use crate::state_set::StateSet;
use reading::records::Position;

impl Ranking {
    /// Ranks every position 0.
    fn begin(&mut self, seat: &Seat<'_, Snapshot>)
        ensures { Least (played seat.now) (ranks_in (played seat.now) self.new) }
    {
        self.entries.fill(Entry { rank: 0, ..ABSENT });
    }

    /// Whether a position is a goal that is neither forbidden nor given up.
    fn is_target(&self, seat: &Seat<'_, Snapshot>, at: Position) -> bool
        requires { Inside (played seat.now) at }
        ensures { Decides result (Target (played seat.now) self.now at.state at.phase) }
    {
        self.entry(at).rank == 0 && seat.game.is_goal(at.state) && !seat.game.forbids(at.state)
    }

    /// Keeps the targets alone.
    fn reset(&mut self, seat: &Seat<'_, Snapshot>)
        requires { Least (played seat.now) (ranks_in (played seat.now) self.old) }
        ensures after { Attracted (played seat.now) self.new 1 }
        ensures zeros { zeros self.new ≤ zeros self.old }
    {
        // loops, since a chain would hold the ranking that they change
        for phase in 0..seat.table.phases() {
            let mut set = StateSet::empty();
            for state in 0..seat.game.states() {
                let at = Position { state, phase };
                if self.is_target(seat, at) {
                    set.insert(state);
                } else {
                    self.give(at, ABSENT);
                }
            }
            self.ranked[usize::from(phase)] = set;
        }
    }

    /// Chooses for a target, or gives it up if it leads nowhere. Whether it was given up.
    fn renew(&mut self, seat: &Seat<'_, Snapshot>, at: Position) -> bool
        requires { Inside (played seat.now) at }
        ensures { Renewed (played seat.now) self.old self.new at.state at.phase result }
    {
        match seat.first(&self.ranked, at) {
            Some(choice) => {
                self.give(at, Entry { rank: 0, choice });
                false
            }
            None => {
                self.give(at, ABSENT);
                true
            }
        }
    }

    /// Gives up the targets that lead nowhere, and chooses for the others. Whether any was given up.
    fn prune(&mut self, seat: &Seat<'_, Snapshot>) -> bool
        requires { Attracted (played seat.now) self.old 65535 }
        ensures least { Least (played seat.now) (ranks_in (played seat.now) self.new) }
        ensures fewer { result ≡ true → zeros self.new < zeros self.old }
        ensures stable { result ≡ false → Stable (played seat.now) (ranks_in (played seat.now) self.new) (choices_in (played seat.now) self.new) }
    {
        // `any` would stop at the first target given up, and each must be renewed
        let mut pruned = false;
        for phase in 0..seat.table.phases() {
            for state in 0..seat.game.states() {
                let at = Position { state, phase };
                if self.entry(at).rank == 0 {
                    pruned |= self.renew(seat, at);
                }
            }
        }
        pruned
    }

    /// Comes to the least ranks that any rival has, with the lowest choices.
    pub(crate) fn settle(&mut self, seat: &Seat<'_, Snapshot>)
        ensures { Stable (played seat.now) (ranks_in (played seat.now) self.new) (choices_in (played seat.now) self.new) }
    {
        let turns = seat.turns();
        self.begin(seat);
        // until a round gives nothing up
        loop {
            self.reset(seat);
            self.attract(seat, &turns);
            if !self.prune(seat) {
                return;
            }
        }
    }
}
