ghost use Rattle.std.specs.Prelude.{◌<◌, ◌≡◌, ◌≤◌, true, false, MatchOption};
ghost use Rattle.checking.specs.Snapshots.{Taken};
ghost use Rattle.checking.specs.Searching.{candidate, how_many};
ghost use Rattle.checking.specs.Verdicts.{BothKnow, Onward, BothWin, OneFails, NoneWins, FirstToWin};
ghost use Rattle.reading.specs.declared.phase_table.PhaseTable.{PhaseTable};

use crate::ranking::Ranking;
use crate::search::candidates::Candidates;
use crate::search::player::Player;
use games::machine::{Game, Machine};
use std::alloc::{AllocError, Global};

/// Both sides' players, and the ranking that they solve with.
#[derive(Drop)]
pub(crate) struct Seeker {
    first: Player,
    second: Player,
    ranking: Ranking,
}

impl Seeker {
    /// Room for the largest games and the most candidates.
    pub(crate) fn new(heap: Global) -> Result<Seeker, AllocError> {
        Ok(Seeker {
            first: Player::new(heap)?,
            second: Player::new(heap)?,
            ranking: Ranking::new(heap)?,
        })
    }

    /// Takes up two games.
    pub(crate) fn begin<G: Game, H: Game>(&mut self, first: &G, second: &H)
        ensures first { Taken (G.Machine.meaning first.now) (G.Game.marks first.now) self.new.first.snapshot }
        ensures second { Taken (H.Machine.meaning second.now) (H.Game.marks second.now) self.new.second.snapshot }
        ensures unknown { (t : PhaseTable) → BothKnow t self.new }
    {
        self.first.begin(first);
        self.second.begin(second);
    }

    /// Has each side solved with all its signals to promise, if this candidate can still be workable: who fails then, fails in the
    /// whole column or row.
    fn probe(&mut self, candidates: &Candidates<'_>, place: usize)
        requires few { how_many candidates.now.table.now.sizes ≤ 65535 }
        requires place { place < how_many candidates.now.table.now.sizes }
        requires knows { BothKnow candidates.now.table.now self.old }
        ensures { Onward candidates.now.table.now self.old self.new }
    {
        let Seeker {
            first,
            second,
            ranking,
        } = self;
        if first.wins(ranking, candidates, 0, candidates.fullest(0, place)) {
            second.wins(ranking, candidates, 1, candidates.fullest(1, place));
        }
    }

    /// Whether both sides have controllers at a place.
    fn workable(&mut self, candidates: &Candidates<'_>, place: usize) -> bool
        requires few { how_many candidates.now.table.now.sizes ≤ 65535 }
        requires place { place < how_many candidates.now.table.now.sizes }
        requires knows { BothKnow candidates.now.table.now self.old }
        ensures knows { Onward candidates.now.table.now self.old self.new }
        ensures wins { result ≡ true → BothWin self.old candidates.now.table.now (candidate candidates.now.table.now.sizes place) }
        ensures fails { result ≡ false → OneFails self.old candidates.now.table.now (candidate candidates.now.table.now.sizes place) }
    {
        if self.first.fails(place) || self.second.fails(place) {
            return false;
        }
        self.probe(candidates, place);
        self.first.tries(&mut self.ranking, candidates, 0, place)
            && self.second.tries(&mut self.ranking, candidates, 1, place)
    }

    /// The place of the first workable candidate, of so many.
    pub(crate) fn first_workable(
        &mut self,
        candidates: &Candidates<'_>,
        many: usize,
    ) -> Option<usize>
        requires few { how_many candidates.now.table.now.sizes ≤ 65535 }
        requires many { many ≤ how_many candidates.now.table.now.sizes }
        requires knows { BothKnow candidates.now.table.now self.old }
        ensures { MatchOption result (NoneWins self.old candidates.now.table.now many) (FirstToWin self.old candidates.now.table.now many) }
    {
        // a loop, since a chain would hold the players that it changes
        for place in 0..many {
            if self.workable(candidates, place) {
                return Some(place);
            }
        }
        None
    }
}
