ghost use Rattle.std.specs.Prelude.{◌+◌, ◌-◌, ◌<◌, ◌≡◌, false, MatchOption};
ghost use Rattle.checking.specs.Snapshots.{played};
ghost use Rattle.checking.specs.Solving.{ranks_in, zeros, Attracted, Layers, Layering, Tracks, Joining, Barred, Turns, Entered, Quiet};

use crate::ranking::{Entry, Ranking};
use crate::seat::Seat;
use crate::snapshot::Snapshot;
use crate::state_set::StateSet;
use reading::records::{NO_RANK, Position};

// What is asked of a ranking is asked of it under a seat, and a ranking outlives each seat: no type holds both.
impl Ranking {
    /// The signal by which a position joins the next layer: it has no rank, is no goal and not forbidden, and is led into the ranked sets.
    fn joining(&self, seat: &Seat<'_, Snapshot>, at: Position) -> Option<u8>
        requires { at.phase < (played seat.now).phases }
        ensures { MatchOption result (Barred (played seat.now) self.now at.state at.phase) (Joining (played seat.now) self.now at.state at.phase) }
    {
        if self.entry(at).rank != NO_RANK
            || seat.game.is_goal(at.state)
            || seat.game.forbids(at.state)
        {
            return None;
        }
        seat.first(&self.ranked, at)
    }

    /// For each phase the states with a move into what was ranked since.
    fn entered(&self, seat: &Seat<'_, Snapshot>, earlier: &[StateSet; 8]) -> [StateSet; 8]
        ensures { Entered (played seat.now) earlier.now self.now.ranked result }
    {
        let mut sources = [StateSet::empty(); 8];
        for phase in 0..seat.table.phases() {
            let place = usize::from(phase);
            sources[place] = seat
                .game
                .sources_of(&self.ranked[place].minus(&earlier[place]));
        }
        sources
    }

    /// Adds to a layer what joins it in one phase, of the states near the layer before, and puts that into the next sets.
    fn add_near(
        &mut self,
        seat: &Seat<'_, Snapshot>,
        depth: u16,
        phase: u8,
        near: &StateSet,
        next: &mut [StateSet; 8],
    )
        requires some { 0 < depth }
        requires few { depth < 65535 }
        requires phase { phase < (played seat.now).phases }
        requires quiet { Quiet (played seat.now) self.old.ranked phase near.now }
        requires before { Layering (played seat.now) self.old next.old depth phase 0 }
        ensures after { Layering (played seat.now) self.new next.new depth (phase + 1) 0 }
        ensures sets { self.new.ranked ≡ self.old.ranked }
        ensures zeros { zeros self.new ≡ zeros self.old }
    {
        let mut from = 0;
        while let Some(state) = near.first_from(from) {
            let at = Position { state, phase };
            if let Some(choice) = self.joining(seat, at) {
                let rank = depth;
                self.give(at, Entry { rank, choice });
                next[usize::from(phase)].insert(state);
            }
            from = state + 1;
        }
    }

    /// Adds a layer: the positions led into the ranks below its depth. Whether there are any.
    fn add_layer(
        &mut self,
        seat: &Seat<'_, Snapshot>,
        turns: &[StateSet; 8],
        earlier: &[StateSet; 8],
        depth: u16,
    ) -> bool
        requires some { 0 < depth }
        requires few { depth < 65535 }
        requires turns { Turns (played seat.now) turns.now }
        requires before { Attracted (played seat.now) self.old depth }
        requires earlier { Tracks (played seat.now) earlier.now (ranks_in (played seat.now) self.old) (depth - 1) }
        ensures after { Attracted (played seat.now) self.new (depth + 1) }
        ensures earlier { Tracks (played seat.now) self.old.ranked (ranks_in (played seat.now) self.new) depth }
        ensures stops { result ≡ false → Layers (played seat.now) self.new depth (depth + 1) }
        ensures zeros { zeros self.new ≡ zeros self.old }
    {
        // what has no move into the layer before was led nowhere new
        let sources = self.entered(seat, earlier);
        // a copy: positions of this layer lead into the layers below, not into each other
        let mut next = self.ranked;
        // a loop, since a chain would hold the ranking that it changes
        for phase in 0..seat.table.phases() {
            let near = seat.near(phase, &turns[usize::from(phase)], &sources);
            self.add_near(seat, depth, phase, &near, &mut next);
        }
        let grown = next != self.ranked;
        self.ranked = next;
        grown
    }

    /// Ranks every position from which the side comes to a target, given the phases that can come after each phase.
    pub(crate) fn attract(&mut self, seat: &Seat<'_, Snapshot>, turns: &[StateSet; 8])
        requires turns { Turns (played seat.now) turns.now }
        requires before { Attracted (played seat.now) self.old 1 }
        ensures after { Attracted (played seat.now) self.new 65535 }
        ensures zeros { zeros self.new ≡ zeros self.old }
    {
        let mut earlier = [StateSet::empty(); 8];
        for depth in 1..NO_RANK {
            let ranked = self.ranked;
            if !self.add_layer(seat, turns, &earlier, depth) {
                return;
            }
            earlier = ranked;
        }
    }
}
