ghost use Rattle.std.specs.Prelude.{◌<◌, ◌≡◌, ◌≤◌, true, false, replicate, Decides, Some, None, slice_index_or};
ghost use Rattle.checking.specs.Snapshots.{Taken, snap_arena};
ghost use Rattle.checking.specs.Controllers.{Controlled};
ghost use Rattle.checking.specs.Searching.{candidate, how_many};
ghost use Rattle.checking.specs.Verdicts.{Knows, Verdict};

use crate::ranking::Ranking;
use crate::search::MOST;
use crate::search::candidates::Candidates;
use crate::search::player::Player;
use crate::search::promises::sets;
use crate::seat::Seat;
use games::deal::Deal;
use games::machine::{Game, Machine};
use reading::phase_table::PhaseTable;

impl Player {
    /// Takes up a game, of which nothing is known yet.
    pub(crate) fn begin<G: Game>(&mut self, game: &G)
        ensures taken { Taken (G.Machine.meaning game.now) (G.Game.marks game.now) self.new.snapshot }
        ensures unknown { self.new.verdicts.items ≡ replicate 65535 None }
    {
        self.snapshot.take(game);
        self.verdicts.fill(None);
    }

    /// Whether there is a controller under a deal.
    fn controls(&self, ranking: &mut Ranking, table: &PhaseTable, deal: &Deal, side: u8) -> bool
        ensures { Decides result (Controlled (snap_arena self.now.snapshot table.now deal.now side)) }
    {
        let seat = Seat {
            game: &self.snapshot,
            table,
            deal,
            side,
        };
        ranking.settle(&seat);
        ranking.ranks_start(&self.snapshot)
    }

    /// Whether it is known that there is no controller at a place.
    pub(crate) fn fails(&self, place: usize) -> bool
        requires { place < 65535 }
        ensures { result ≡ true → slice_index_or self.now.verdicts.items place None ≡ Some false }
    {
        self.verdicts[place] == Some(false)
    }

    /// Whether there is a controller at a place: as known, or by solving.
    pub(crate) fn wins(
        &mut self,
        ranking: &mut Ranking,
        candidates: &Candidates<'_>,
        side: u8,
        place: usize,
    ) -> bool
        requires few { how_many candidates.now.table.now.sizes ≤ 65535 }
        requires place { place < how_many candidates.now.table.now.sizes }
        requires knows { Knows candidates.now.table.now side self.old }
        ensures knows { Knows candidates.now.table.now side self.new }
        ensures same { self.new.snapshot ≡ self.old.snapshot }
        ensures verdict { Verdict self.old.snapshot candidates.now.table.now side (candidate candidates.now.table.now.sizes place) (Some result) }
    {
        if let Some(won) = self.verdicts[place] {
            return won;
        }
        let won = self.controls(ranking, candidates.table, &candidates.deal(place), side);
        self.note(candidates, side, place, won);
        won
    }

    /// Tries a side that fails at a place with all its signals in the first phase, then in two phases, and so on, until it does not fail:
    /// what it fails with decides the places on the way there.
    fn widen(&mut self, ranking: &mut Ranking, candidates: &Candidates<'_>, side: u8, place: usize)
        requires few { how_many candidates.now.table.now.sizes ≤ 65535 }
        requires place { place < how_many candidates.now.table.now.sizes }
        requires knows { Knows candidates.now.table.now side self.old }
        ensures knows { Knows candidates.now.table.now side self.new }
        ensures same { self.new.snapshot ≡ self.old.snapshot }
    {
        let table = candidates.table;
        let sets = sets(table.signals(side)) as usize;
        // how many promises there are over the phases so far
        let mut block = 1;
        for _ in 0..table.phases() {
            block = MOST.min(block * sets);
            let wide = candidates.fuller(side, place, block);
            if self.wins(ranking, candidates, side, wide) {
                return;
            }
        }
    }

    /// Whether there is a controller at a place. Where there is none, places with more to promise are tried too.
    pub(crate) fn tries(
        &mut self,
        ranking: &mut Ranking,
        candidates: &Candidates<'_>,
        side: u8,
        place: usize,
    ) -> bool
        requires few { how_many candidates.now.table.now.sizes ≤ 65535 }
        requires place { place < how_many candidates.now.table.now.sizes }
        requires knows { Knows candidates.now.table.now side self.old }
        ensures knows { Knows candidates.now.table.now side self.new }
        ensures same { self.new.snapshot ≡ self.old.snapshot }
        ensures verdict { Verdict self.old.snapshot candidates.now.table.now side (candidate candidates.now.table.now.sizes place) (Some result) }
    {
        let won = self.wins(ranking, candidates, side, place);
        if !won {
            self.widen(ranking, candidates, side, place);
        }
        won
    }
}
