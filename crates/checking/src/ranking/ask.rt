ghost use Rattle.std.specs.Prelude.{◌+◌, ◌*◌, ◌<◌, ◌≡◌, ◌==◌, not, slice_index_or, slice_set};
ghost use Rattle.checking.specs.Solving.{absent};

use crate::ranking::{ABSENT, Entry, Ranking};
use crate::snapshot::Snapshot;
use crate::state_set::StateSet;
use reading::records::{NO_RANK, Position};
use std::alloc::{AllocError, Global};

impl Ranking {
    /// Room for the largest game.
    pub(crate) fn new(heap: Global) -> Result<Ranking, AllocError> {
        Ok(Ranking {
            entries: vec![in heap; ABSENT; 2048]?,
            ranked: [StateSet::empty(); 8],
        })
    }

    /// The entry of a position; absent where there is no place for it.
    pub(crate) fn entry(&self, at: Position) -> Entry
        ensures { result ≡ slice_index_or self.now.entries.items (at.state * 8 + at.phase) absent }
    {
        self.entries.get(at.place(8)).copied().unwrap_or(ABSENT)
    }

    /// Whether the start of a game is ranked in phase 0.
    pub(crate) fn ranks_start(&self, game: &Snapshot) -> bool
        ensures { result ≡ not ((slice_index_or self.now.entries.items (game.now.frame.start * 8 + 0) absent).rank == 65535) }
    {
        let start = Position {
            state: game.start(),
            phase: 0,
        };
        self.entry(start).rank != NO_RANK
    }

    /// Gives a position its entry.
    pub(crate) fn give(&mut self, at: Position, entry: Entry)
        requires { at.state * 8 + at.phase < 2048 }
        ensures entries { self.new.entries.items ≡ slice_set self.old.entries.items (at.state * 8 + at.phase) entry }
        ensures sets { self.new.ranked ≡ self.old.ranked }
    {
        self.entries[at.place(8)] = entry;
    }
}
