ghost use Rattle.std.specs.Prelude.{◌<◌, ◌≡◌, ◌≤◌, length, Decides, Some, slice_index};
ghost use Rattle.checking.specs.Searching.{candidate, how_many};
ghost use Rattle.checking.specs.Verdicts.{Knows, Ordered, Verdict, Within, upward};

use crate::search::candidates::Candidates;
use crate::search::player::Player;

/// Whether every signal of one set is in the other.
fn within(inner: u32, outer: u32) -> bool
    ensures { Decides result (Within inner outer) }
{
    inner & outer == inner
}

/// Whether the first set lies within the second, or, where it is to be the other way round, the second within the first.
fn ordered(up: bool, first: u32, second: u32) -> bool
    ensures { Decides result (Ordered up first second) }
{
    if up {
        within(first, second)
    } else {
        within(second, first)
    }
}

impl Player {
    /// Notes a verdict in a row of candidates, whose side 0 it suits: where it suits side 1's promise too.
    fn note_row(
        &mut self,
        candidates: &Candidates<'_>,
        side: u8,
        place: usize,
        won: bool,
        row: usize,
    )
        requires row { row < length candidates.now.first.now }
        requires few { how_many candidates.now.table.now.sizes ≤ 65535 }
        requires place { place < how_many candidates.now.table.now.sizes }
        requires knows { Knows candidates.now.table.now side self.old }
        requires verdict { Verdict self.old.snapshot candidates.now.table.now side (candidate candidates.now.table.now.sizes place) (Some won) }
        requires ordered { Ordered (upward side won) (candidate candidates.now.table.now.sizes place).first (slice_index candidates.now.first.now row) }
        ensures knows { Knows candidates.now.table.now side self.new }
        ensures same { self.new.snapshot ≡ self.old.snapshot }
    {
        let up = (side == 0) == won;
        let at = candidates.at(place);
        let columns = candidates.second.len();
        for column in 0..columns {
            if ordered(!up, at.second, candidates.second[column]) {
                self.verdicts[row * columns + column] = Some(won);
            }
        }
    }

    /// Notes a verdict at every candidate that it decides. Who has a controller has one with more to promise and less to rely on; who has
    /// none has none with less to promise and more to rely on.
    pub(crate) fn note(&mut self, candidates: &Candidates<'_>, side: u8, place: usize, won: bool)
        requires few { how_many candidates.now.table.now.sizes ≤ 65535 }
        requires place { place < how_many candidates.now.table.now.sizes }
        requires knows { Knows candidates.now.table.now side self.old }
        requires verdict { Verdict self.old.snapshot candidates.now.table.now side (candidate candidates.now.table.now.sizes place) (Some won) }
        ensures knows { Knows candidates.now.table.now side self.new }
        ensures same { self.new.snapshot ≡ self.old.snapshot }
    {
        let up = (side == 0) == won;
        let at = candidates.at(place);
        for row in 0..candidates.first.len() {
            if ordered(up, at.first, candidates.first[row]) {
                self.note_row(candidates, side, place, won, row);
            }
        }
    }
}
