ghost use Rattle.std.specs.Prelude.{◌<◌, ◌≡◌, ◌≤◌, ℕ, true, [], length, slice_index_or, vec_len};
ghost use Rattle.checking.specs.StateSets.{member, nothing};
ghost use Rattle.checking.specs.Sources.{row_of, rows_move};
ghost use Rattle.checking.specs.Snapshots.{Taken};

use crate::snapshot::Snapshot;
use crate::state_set::StateSet;
use games::machine::{Game, Machine, frame};
use reading::machine_sheet::Frame;
use std::alloc::{AllocError, Global};

/// The set of next states under two signals.
fn next_states<G: Machine>(game: &G, state: u16, own: u8, partner: u8) -> StateSet
    ensures { (t : ℕ) → member result t ≡ (G.Machine.meaning game.now).move state own partner t }
{
    // a signal that there is not moves nowhere, and need not be asked about
    if own >= game.own() || partner >= game.partner() {
        return StateSet::empty();
    }
    StateSet::of(
        game.states(),
        |next| game.may_move(state, own, partner, next),
    )
}

/// The sets for an own signal, one for each signal of the partner.
fn own_row<G: Machine>(game: &G, state: u16, own: u8) -> [StateSet; 4]
    ensures { (b t : ℕ) → b < 4 → member (slice_index_or result b nothing) t ≡ (G.Machine.meaning game.now).move state own b t }
{
    let under = |partner| next_states(game, state, own, partner);
    [under(0), under(1), under(2), under(3)]
}

/// The sets for a state, by its own signal, then its partner's.
fn state_rows<G: Machine>(game: &G, state: u16) -> [[StateSet; 4]; 4]
    ensures { (x b t : ℕ) → x < 4 → b < 4 → member (slice_index_or (slice_index_or result x []) b nothing) t ≡ (G.Machine.meaning game.now).move state x b t }
{
    let row = |own| own_row(game, state, own);
    [row(0), row(1), row(2), row(3)]
}

/// Fills the rows of a game's states.
fn fill_rows<G: Machine>(game: &G, rows: &mut Vec<[[StateSet; 4]; 4]>)
    requires { vec_len rows.old ≡ 256 }
    ensures rows { (s x b t : ℕ) → s < (G.Machine.meaning game.now).states → x < 4 → b < 4 → member (row_of rows.new.items s x b) t ≡ (G.Machine.meaning game.now).move s x b t }
    ensures long { vec_len rows.new ≡ 256 }
{
    for state in 0..game.states() {
        rows[usize::from(state)] = state_rows(game, state);
    }
}

/// The states of any of four sets.
fn any_of_four(sets: &[StateSet; 4]) -> StateSet
    ensures { (i t : ℕ) → i < 4 → member (slice_index_or sets.now i nothing) t ≡ true → member result t ≡ true }
{
    let [first, second, third, fourth] = sets;
    first.or(second).or(&third.or(fourth))
}

/// All states that a state has a move to, by its rows.
fn all_next(rows: &[[StateSet; 4]; 4]) -> StateSet
    ensures { (x b t : ℕ) → x < 4 → b < 4 → member (slice_index_or (slice_index_or rows.now x []) b nothing) t ≡ true → member result t ≡ true }
{
    let [first, second, third, fourth] = rows;
    let sets = [
        any_of_four(first),
        any_of_four(second),
        any_of_four(third),
        any_of_four(fourth),
    ];
    any_of_four(&sets)
}

/// Puts a state among the sources of the states of a set.
fn add_source(sources: &mut Vec<StateSet>, state: u16, next: &StateSet)
    requires long { vec_len sources.old ≡ 256 }
    requires low { state < 256 }
    ensures more { (t s : ℕ) → member (slice_index_or sources.old.items t nothing) s ≡ true → member (slice_index_or sources.new.items t nothing) s ≡ true }
    ensures added { (t : ℕ) → member next.now t ≡ true → member (slice_index_or sources.new.items t nothing) state ≡ true }
    ensures long { vec_len sources.new ≡ 256 }
{
    let mut from = 0;
    while let Some(target) = next.first_from(from) {
        sources[usize::from(target)].insert(state);
        from = target + 1;
    }
}

/// Fills the sources of each state, by the rows of a game's states.
fn fill_sources(sources: &mut Vec<StateSet>, rows: &[[[StateSet; 4]; 4]], states: u16)
    requires few { states ≤ 256 }
    requires rows { length rows.now ≡ 256 }
    requires long { vec_len sources.old ≡ 256 }
    ensures filled { (s x b t : ℕ) → rows_move states rows.now s x b t ≡ true → member (slice_index_or sources.new.items t nothing) s ≡ true }
    ensures long { vec_len sources.new ≡ 256 }
{
    // what is left of an earlier game would cost time
    sources.fill(StateSet::empty());
    for state in 0..states {
        add_source(sources, state, &all_next(&rows[usize::from(state)]));
    }
}

impl Snapshot {
    /// Room for the largest game.
    pub(crate) fn new(heap: Global) -> Result<Snapshot, AllocError> {
        Ok(Snapshot {
            frame: Frame::least(),
            rows: vec![in heap; [[StateSet::empty(); 4]; 4]; 256]?,
            sources: vec![in heap; StateSet::empty(); 256]?,
            forbidden: StateSet::empty(),
            goals: StateSet::empty(),
        })
    }

    /// Takes a snapshot of a game.
    pub(crate) fn take<G: Game>(&mut self, game: &G)
        ensures { Taken (G.Machine.meaning game.now) (G.Game.marks game.now) self.new }
    {
        fill_rows(game, &mut self.rows);
        fill_sources(&mut self.sources, &self.rows, game.states());
        self.forbidden = StateSet::of(game.states(), |state| game.forbidden(state));
        self.goals = StateSet::of(game.states(), |state| game.goal(state));
        self.frame = frame(game);
    }
}
