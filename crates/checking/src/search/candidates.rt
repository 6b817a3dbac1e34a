ghost use Rattle.std.specs.Prelude.{◌<◌, ◌≡◌, ◌≤◌, length};
ghost use Rattle.games.specs.Signings.{Dealt};
ghost use Rattle.checking.specs.Searching.{promises, candidate, how_many, terms_of};

use crate::search::promises::Promises;
use games::deal::signing::sign;
use games::deal::{Deal, Terms};
use reading::phase_table::PhaseTable;
use reading::sides::Sides;

/// The candidates on a phase table, by place: each side's promises, and candidates ascend by the first, then by the second.
#[derive(Clone, Copy)]
pub(crate) struct Candidates<'a> {
    pub(crate) table: &'a PhaseTable,
    pub(crate) first: &'a [u32],
    pub(crate) second: &'a [u32],
    ghost listed0: { first.now ≡ promises table.now.sizes.phases table.now.sizes.signals.first },
    ghost listed1: { second.now ≡ promises table.now.sizes.phases table.now.sizes.signals.second },
    ghost few0: { length first.now ≤ 65535 },
    ghost few1: { length second.now ≤ 65535 },
}

/// The last place in the block of a place, of so many places.
fn last_in_block(place: usize, block: usize, count: usize) -> usize
    requires block { 0 < block }
    requires short { block ≤ 65535 }
    requires place { place < count }
    requires few { count ≤ 65535 }
    ensures { result < count }
{
    let last = place / block * block + (block - 1);
    last.min(count - 1)
}

impl Candidates<'_> {
    /// How many there are.
    pub(crate) fn count(&self) -> usize
        ensures { result ≡ how_many self.now.table.now.sizes }
    {
        self.first.len() * self.second.len()
    }

    /// The promises at a place.
    pub(crate) fn at(&self, place: usize) -> Sides<u32>
        requires { place < how_many self.now.table.now.sizes }
        ensures { result ≡ candidate self.now.table.now.sizes place }
    {
        let columns = self.second.len();
        Sides {
            first: self.first[place / columns],
            second: self.second[place % columns],
        }
    }

    /// The deal at a place: each side relies on what the other promises.
    pub(crate) fn deal(&self, place: usize) -> Deal
        requires { place < how_many self.now.table.now.sizes }
        ensures { Dealt self.now.table.now.sizes (terms_of (candidate self.now.table.now.sizes place)) result }
    {
        let Sides { first, second } = self.at(place);
        let terms = Sides {
            first: Terms {
                promise: first,
                reliance: second,
            },
            second: Terms {
                promise: second,
                reliance: first,
            },
        };
        // each promise is as described, and within what relies on it
        sign(self.table, terms).unwrap()
    }

    /// The place with the same promise of a side's partner, and all signals for the side itself.
    pub(crate) fn fullest(&self, side: u8, place: usize) -> usize
        requires { place < how_many self.now.table.now.sizes }
        ensures { result < how_many self.now.table.now.sizes }
    {
        let columns = self.second.len();
        // all signals make the largest promise, which is the last
        if side == 0 {
            (self.first.len() - 1) * columns + place % columns
        } else {
            place / columns * columns + (columns - 1)
        }
    }

    /// The place with the same promise of a side's partner, and for the side itself the last of its promises in a block: they stand in
    /// blocks of so many.
    pub(crate) fn fuller(&self, side: u8, place: usize, block: usize) -> usize
        requires place { place < how_many self.now.table.now.sizes }
        requires block { 0 < block }
        requires short { block ≤ 65535 }
        requires few { how_many self.now.table.now.sizes ≤ 65535 }
        ensures { result < how_many self.now.table.now.sizes }
    {
        let columns = self.second.len();
        let (row, column) = (place / columns, place % columns);
        if side == 0 {
            last_in_block(row, block, self.first.len()) * columns + column
        } else {
            row * columns + last_in_block(column, block, columns)
        }
    }
}
