mod candidates;
mod player;
mod promises;
mod seek;

ghost use Rattle.std.specs.Prelude.{◌≡◌, ◌≤◌, true, length, nat_le, vec_len, IfOk};
ghost use Rattle.reading.specs.Sides.{both};
ghost use Rattle.checking.specs.Searching.{how_many, meet, promises as promises_of, Searches};

use crate::faults::SearchFault;
use crate::search::candidates::Candidates;
use crate::search::promises::Promises;
use crate::search::seek::Seeker;
use games::deal::Deal;
use games::machine::{Game, Machine};
use reading::faults::check;
use reading::phase_table::PhaseTable;
use reading::sides::Sides;
use reading::sizes::Sizes;
use std::alloc::{AllocError, Global};

/// The most candidates that a search takes, and the most tries that it can be allowed.
const MOST: usize = 65_535;

/// The first workable deal, and its place in the order of candidates, from 1.
#[derive(Clone, Copy, PartialEq, Eq, Debug)]
pub struct Agreement {
    pub deal: Deal,
    pub tries: u16,
}

/// Room for a search, made once for games of any size; searching itself takes no memory.
#[derive(Drop)]
pub struct SearchWorkspace {
    promises: Sides<Promises>,
    seeker: Seeker,
}

impl SearchWorkspace {
    /// Room for the largest games and the most candidates.
    pub fn new(heap: Global) -> Result<SearchWorkspace, AllocError>
        ensures games { IfOk result (λ w. (vec_len w.seeker.first.snapshot.rows ≡ 256) × (vec_len w.seeker.second.snapshot.rows ≡ 256)) }
        ensures positions { IfOk result (λ w. vec_len w.seeker.ranking.entries ≡ 2048) }
        ensures candidates { IfOk result (λ w. (vec_len w.seeker.first.verdicts ≡ 65535) × (vec_len w.seeker.second.verdicts ≡ 65535)) }
    {
        Ok(SearchWorkspace {
            promises: Sides {
                first: Promises::new(heap)?,
                second: Promises::new(heap)?,
            },
            seeker: Seeker::new(heap)?,
        })
    }
}

/// Whether both games and the table are of the same sizes.
fn meet<G: Machine, H: Machine>(first: &G, second: &H, table: &PhaseTable) -> bool
    ensures { result ≡ meet (both (G.Machine.meaning first.now) (H.Machine.meaning second.now)) table.now.sizes }
{
    let signals = table.sizes().signals;
    first.own() == signals.first
        && first.partner() == signals.second
        && second.own() == signals.second
        && second.partner() == signals.first
}

/// Lists both sides' promises. Whether they make no more candidates than a search takes.
fn list_both(promises: &mut Sides<Promises>, sizes: Sizes) -> bool
    ensures few { result ≡ nat_le (how_many sizes) 65535 }
    ensures first { result ≡ true → promises.new.first.numbers.items ≡ promises_of sizes.phases sizes.signals.first }
    ensures second { result ≡ true → promises.new.second.numbers.items ≡ promises_of sizes.phases sizes.signals.second }
    ensures short0 { result ≡ true → length promises.new.first.numbers.items ≤ 65535 }
    ensures short1 { result ≡ true → length promises.new.second.numbers.items ≤ 65535 }
{
    let Sides { first, second } = promises;
    if !first.list(sizes.phases, sizes.signals.first) {
        return false;
    }
    if !second.list(sizes.phases, sizes.signals.second) {
        return false;
    }
    first.numbers().len() * second.numbers().len() <= MOST
}

/// The first workable deal in the order of candidates. A candidate is a promise of each side, on which the other relies; candidates
/// ascend by side 0's number, then by side 1's; one is workable if both sides have ranked controllers.
pub fn search<G: Game, H: Game>(
    workspace: &mut SearchWorkspace,
    first: &G,
    second: &H,
    table: &PhaseTable,
    allowance: u32,
) -> Result<Agreement, SearchFault>
    ensures { Searches (both (G.Machine.meaning first.now) (H.Machine.meaning second.now)) (both (G.Game.marks first.now) (H.Game.marks second.now)) table.now allowance result }
{
    check(meet(first, second, table), SearchFault::Sizes)?;
    check((1..=65_535).contains(&allowance), SearchFault::Allowance)?;
    let SearchWorkspace { promises, seeker } = workspace;
    check(list_both(promises, table.sizes()), SearchFault::TooMany)?;
    let promises = &*promises;
    let candidates = Candidates {
        table,
        first: promises.first.numbers(),
        second: promises.second.numbers(),
    };
    seeker.begin(first, second);
    let count = candidates.count();
    let allowance = allowance as usize;
    match seeker.first_workable(&candidates, count.min(allowance)) {
        Some(place) => Ok(Agreement {
            deal: candidates.deal(place),
            tries: place as u16 + 1,
        }),
        None if allowance < count => Err(SearchFault::Untried(allowance as u16)),
        None => Err(SearchFault::NoDeal(count as u16)),
    }
}
