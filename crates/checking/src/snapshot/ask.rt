ghost use Rattle.std.specs.Prelude.{◌≡◌, ℕ, true};
ghost use Rattle.checking.specs.StateSets.{member};
ghost use Rattle.checking.specs.Snapshots.{snap_move, snap_forbidden, snap_goal};

use crate::snapshot::{SIGNALS, Snapshot};
use crate::state_set::StateSet;

// A snapshot is no game: it keeps no labels, which a machine has to answer.
impl Snapshot {
    /// How many states there are.
    pub(crate) fn states(&self) -> u16
        ensures { result ≡ self.now.frame.states }
    {
        self.frame.states
    }

    /// How many signals the machine can show.
    pub(crate) fn own(&self) -> u8
        ensures { result ≡ self.now.frame.own }
    {
        self.frame.own
    }

    /// The state that it starts in.
    pub(crate) fn start(&self) -> u16
        ensures { result ≡ self.now.frame.start }
    {
        self.frame.start
    }

    /// The set of next states under two signals.
    pub(crate) fn row(&self, state: u16, own: u8, partner: u8) -> StateSet
        ensures { (t : ℕ) → member result t ≡ snap_move self.now state own partner t }
    {
        if state < self.frame.states && own < SIGNALS && partner < SIGNALS {
            self.rows[usize::from(state)][usize::from(own)][usize::from(partner)]
        } else {
            StateSet::empty()
        }
    }

    /// The states with a move into a set, whichever signals are shown.
    pub(crate) fn sources_of(&self, set: &StateSet) -> StateSet
        ensures { (s x b t : ℕ) → snap_move self.now s x b t ≡ true → member set.now t ≡ true → member result s ≡ true }
    {
        set.union_at(&self.sources)
    }

    /// Whether a state is forbidden.
    pub(crate) fn forbids(&self, state: u16) -> bool
        ensures { result ≡ snap_forbidden self.now state }
    {
        state >= self.frame.states || self.forbidden.contains(state)
    }

    /// Whether a state is a goal.
    pub(crate) fn is_goal(&self, state: u16) -> bool
        ensures { result ≡ snap_goal self.now state }
    {
        state < self.frame.states && self.goals.contains(state)
    }
}
