ghost use Rattle.std.specs.Prelude.{◌≡◌, ℕ, Decides, MatchOption};
ghost use Rattle.reading.specs.Firsts.{some_below};
ghost use Rattle.checking.specs.Arenas.{relied};
ghost use Rattle.checking.specs.Snapshots.{played};
ghost use Rattle.checking.specs.Solving.{Answered, Leading, First, After, Turns, Near};

use crate::seat::Seat;
use crate::snapshot::{SIGNALS, Snapshot};
use crate::state_set::StateSet;
use reading::records::Position;

impl Seat<'_, Snapshot> {
    /// Whether a signal leads into the sets where the partner shows a signal.
    fn answered(&self, sets: &[StateSet; 8], at: Position, own: u8, partner: u8) -> bool
        ensures { Decides result (Answered (played self.now) sets.now at.state at.phase own partner) }
    {
        let row = self.game.row(at.state, own, partner);
        let follow = self.follow(at.phase, own, partner);
        !row.is_empty() && row.within(&sets[usize::from(follow)])
    }

    /// Whether a signal leads into the sets, whichever relied signal the partner shows.
    fn leads(&self, sets: &[StateSet; 8], at: Position, own: u8) -> bool
        ensures { Decides result (Leading (played self.now) sets.now at.state at.phase own) }
    {
        self.promised(at.phase, own)
            && (0..SIGNALS).all(|partner| {
                !self.relied(at.phase, partner) || self.answered(sets, at, own, partner)
            })
    }

    /// The lowest signal that leads into the sets.
    pub(crate) fn first(&self, sets: &[StateSet; 8], at: Position) -> Option<u8>
        ensures { MatchOption result ((x : ℕ) → Leading (played self.now) sets.now at.state at.phase x → ⊥) (First (played self.now) sets.now at.state at.phase) }
    {
        (0..SIGNALS).find(|own| self.leads(sets, at, *own))
    }
    /// Whether the side relies on any signal in a phase.
    fn relies(&self, phase: u8) -> bool
        ensures { result ≡ some_below 4 (relied self.now.deal.now self.now.side phase) }
    {
        (0..SIGNALS).any(|partner| self.relied(phase, partner))
    }

    /// The phases that can come after a phase.
    fn phases_after(&self, phase: u8) -> StateSet
        ensures { After (played self.now) phase result }
    {
        let mut after = StateSet::empty();
        for own in 0..SIGNALS {
            for partner in 0..SIGNALS {
                if self.promised(phase, own) && self.relied(phase, partner) {
                    after.insert(u16::from(self.follow(phase, own, partner)));
                }
            }
        }
        after
    }

    /// For each phase the phases that can come after it.
    pub(crate) fn turns(&self) -> [StateSet; 8]
        ensures { Turns (played self.now) result }
    {
        let mut turns = [StateSet::empty(); 8];
        for phase in 0..self.table.phases() {
            turns[usize::from(phase)] = self.phases_after(phase);
        }
        turns
    }

    /// The states from which a move in a phase may come into sets, given the phases that can come after, and for each of these the
    /// states with a move into its set.
    pub(crate) fn near(&self, phase: u8, after: &StateSet, sources: &[StateSet; 8]) -> StateSet
        requires { After (played self.now) phase after.now }
        ensures { Near (played self.now) sources.now phase result }
    {
        // with no signal to rely on each state is led into any sets
        if self.relies(phase) {
            after.union_at(sources)
        } else {
            StateSet::of(self.game.states(), |_| true)
        }
    }
}
