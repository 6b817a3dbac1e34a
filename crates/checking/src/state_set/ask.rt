ghost use Rattle.std.specs.Prelude.{◌<◌, ◌≡◌, ℕ, ◌≤◌, true, false, not, ◌&&◌, ◌||◌, Decides, MatchOption, ◌==◌, slice_index_or};
ghost use Rattle.reading.specs.Bytes.{bit};
ghost use Rattle.checking.specs.StateSets.{member, nothing, FirstFrom};

use crate::state_set::StateSet;

/// How many states a word holds.
const WORD: u16 = 128;

/// The lowest bit of a word from a place on.
fn lowest(word: u128, from: u16) -> Option<u16>
    requires { from < 128 }
    ensures { MatchOption result ((i : ℕ) → from ≤ i → bit word i ≡ false) (FirstFrom (bit word) from 128) }
{
    let rest = word >> from;
    if rest == 0 {
        return None;
    }
    Some(from + rest.trailing_zeros() as u16)
}

/// The set at a place, none past their end.
fn set_at(sets: &[StateSet], place: u16) -> StateSet
    ensures { result ≡ slice_index_or sets.now place nothing }
{
    sets.get(usize::from(place))
        .copied()
        .unwrap_or(StateSet::empty())
}

impl StateSet {
    /// No state at all.
    pub(crate) fn empty() -> StateSet
        ensures { result ≡ nothing }
    {
        StateSet { low: 0, high: 0 }
    }

    /// The states below a bound that pass a test.
    pub(crate) fn of<F: Fn(u16) -> bool>(states: u16, test: F) -> StateSet
        requires few { states ≤ 256 }
        requires callable { F.IsAlwaysCallable test }
        ensures below { (t : ℕ) → t < states → F.post test t (member result t) }
        ensures above { (t : ℕ) → states ≤ t → member result t ≡ false }
    {
        // a loop that fills, of one line
        let mut set = StateSet::empty();
        for state in 0..states {
            if test(state) {
                set.insert(state);
            }
        }
        set
    }

    /// Whether a state is in the set.
    pub(crate) fn contains(&self, state: u16) -> bool
        requires { state < 256 }
        ensures { result ≡ member self.now state }
    {
        if state < WORD {
            (self.low >> state) % 2 == 1
        } else {
            (self.high >> (state - WORD)) % 2 == 1
        }
    }

    /// Puts a state into the set.
    pub(crate) fn insert(&mut self, state: u16)
        requires { state < 256 }
        ensures { (t : ℕ) → member self.new t ≡ (t == state || member self.old t) }
    {
        if state < WORD {
            self.low |= 1 << state;
        } else {
            self.high |= 1 << (state - WORD);
        }
    }

    /// Whether there is no state in the set.
    pub(crate) fn is_empty(&self) -> bool
        ensures none { result ≡ true → (t : ℕ) → member self.now t ≡ false }
        ensures some { result ≡ false → (t : ℕ) × (member self.now t ≡ true) }
    {
        self.low == 0 && self.high == 0
    }

    /// Whether every state of the set is in the other too.
    pub(crate) fn within(&self, other: &StateSet) -> bool
        ensures { Decides result ((t : ℕ) → member self.now t ≡ true → member other.now t ≡ true) }
    {
        self.low & other.low == self.low && self.high & other.high == self.high
    }
    /// The lowest state of the set from a state on.
    pub(crate) fn first_from(&self, from: u16) -> Option<u16>
        ensures { MatchOption result ((t : ℕ) → from ≤ t → member self.now t ≡ false) (FirstFrom (member self.now) from 256) }
    {
        if from < WORD {
            if let Some(place) = lowest(self.low, from) {
                return Some(place);
            }
        }
        let from = from.saturating_sub(WORD);
        if from >= WORD {
            return None;
        }
        Some(lowest(self.high, from)? + WORD)
    }

    /// The states of either set.
    pub(crate) fn or(&self, other: &StateSet) -> StateSet
        ensures { (t : ℕ) → member result t ≡ (member self.now t || member other.now t) }
    {
        StateSet {
            low: self.low | other.low,
            high: self.high | other.high,
        }
    }

    /// The states of the set that are not in the other.
    pub(crate) fn minus(&self, other: &StateSet) -> StateSet
        ensures { (t : ℕ) → member result t ≡ (member self.now t && not (member other.now t)) }
    {
        StateSet {
            low: self.low & !other.low,
            high: self.high & !other.high,
        }
    }
    /// The union of the sets whose places are in this one; a place past their end has none.
    pub(crate) fn union_at(&self, sets: &[StateSet]) -> StateSet
        ensures { (t s : ℕ) → member self.now t ≡ true → member (slice_index_or sets.now t nothing) s ≡ true → member result s ≡ true }
    {
        let mut all = StateSet::empty();
        let mut from = 0;
        while let Some(place) = self.first_from(from) {
            all = all.or(&set_at(sets, place));
            from = place + 1;
        }
        all
    }
}
