use crate::deals::Deals;
use crate::tally::Tally;
use anyhow::{Result, ensure};
use checking::faults::SearchFault;
use checking::search::{Agreement, SearchWorkspace, search};
use drawn::draws;
use games::machine::Game;
use reading::phase_table::PhaseTable;
use rival::arena::Arena;
use rival::candidates;
use rival::candidates::{Facing, Found, Unfound};
use rival::random::Random;
use std::alloc::Global;

/// Lets two games meet, searches twice for a deal, and counts the answers that agree.
#[derive(Drop)]
pub struct Meeting {
    heap: Global,
    workspace: SearchWorkspace,
    pub searched: Tally,
    pub deals: Deals,
}

/// Two games under a phase table, as the first search has them, and as the second does.
#[derive_where(Clone, Copy)]
struct Meets<'a, G: Game, H: Game> {
    first: &'a G,
    second: &'a H,
    table: &'a PhaseTable,
    facing: Facing<'a>,
}

/// So many candidates are all tried by the second search, too.
const FEW: u16 = 729;

/// A deal in the second search's words; a reliance is the other side's promise.
fn told(agreement: &Agreement) -> Found {
    let deal = &agreement.deal;
    Found {
        promises: [deal.promise(0), deal.promise(1)],
        reliances: [deal.reliance(0), deal.reliance(1)],
        signed: [deal.phases(), deal.signals(0), deal.signals(1)],
        tries: agreement.tries,
    }
}

/// A refusal in the second search's words.
fn refused(fault: SearchFault) -> Unfound {
    let tries = match fault {
        SearchFault::Sizes | SearchFault::Allowance | SearchFault::TooMany => None,
        SearchFault::Untried(tries) | SearchFault::NoDeal(tries) => Some(tries),
    };
    Unfound {
        number: fault.number().into(),
        tries,
    }
}

/// An allowance for so many candidates: often just that many, one less or one more, and seldom one out of range.
fn allowance(random: &mut Random, candidates: u64) -> u32 {
    let few = u32::from(FEW);
    let Ok(count) = u32::try_from(candidates) else {
        return 1 + u32::from(random.up_to(FEW));
    };
    match random.up_to(19) {
        0 => 0,
        1 => 65_536 + u32::from(random.up_to(10)),
        _ if count > few => 1 + u32::from(random.up_to(FEW)),
        2..=5 => count,
        6..=9 => count.saturating_sub(1),
        10 => count.saturating_add(1),
        11..=13 => 1 + u32::from(random.up_to(FEW)),
        _ => 65_535,
    }
}

impl Meeting {
    pub fn new(heap: Global) -> Result<Meeting> {
        Ok(Meeting {
            heap,
            workspace: SearchWorkspace::new(heap)?,
            searched: Tally::new("found a deal"),
            deals: Deals::new(),
        })
    }

    pub fn clear(&mut self) {
        self.searched = Tally::new("found a deal");
        self.deals = Deals::new();
    }

    /// Draws a table and an allowance, and compares what is found.
    pub fn play<G: Game, H: Game>(
        &mut self,
        random: &mut Random,
        sizes: [u8; 3],
        first: &(G, Arena),
        second: &(H, Arena),
    ) -> Result<()> {
        let sizes = if random.once_in(30) {
            draws::sizes(random)
        } else {
            sizes
        };
        let bytes = draws::table(self.heap, random, sizes)?;
        let facing = Facing {
            first: &first.1,
            second: &second.1,
            table: bytes.as_slice(),
        };
        let table = PhaseTable::parse(bytes.as_slice())?;
        let meets = Meets {
            first: &first.0,
            second: &second.0,
            table: &table,
            facing,
        };
        let allowance = allowance(random, facing.candidates());
        self.search_about(&meets, allowance)
    }

    /// Compares what is found; where a deal is found, or there is none at all, with just as many tries as that takes, too, with one
    /// less and with one more.
    fn search_about<G: Game, H: Game>(
        &mut self,
        meets: &Meets<'_, G, H>,
        allowance: u32,
    ) -> Result<()> {
        let tries = match self.search(meets, allowance)? {
            Ok(found) => {
                self.deals.add(&found);
                found.tries
            }
            Err(unfound) => match unfound.tries {
                Some(tries) if unfound.number == 27 => tries,
                _ => return Ok(()),
            },
        };
        let tries = u32::from(tries);
        for nearby in tries.saturating_sub(1)..=tries.saturating_add(1) {
            let _ = self.search(meets, nearby)?;
        }
        Ok(())
    }

    /// Compares the deal and its tries, or the refusal and its tries.
    fn search<G: Game, H: Game>(
        &mut self,
        meets: &Meets<'_, G, H>,
        allowance: u32,
    ) -> Result<Result<Found, Unfound>> {
        let second = candidates::search(self.heap, &meets.facing, allowance)?;
        let first = search(
            &mut self.workspace,
            meets.first,
            meets.second,
            meets.table,
            allowance,
        );
        let first = match &first {
            Ok(agreement) => Ok(told(agreement)),
            Err(fault) => Err(refused(*fault)),
        };
        ensure!(
            first == second,
            "searching differs at allowance {allowance}"
        );
        self.searched.add(
            first
                .map(|found| found.tries)
                .map_err(|unfound| unfound.number),
        );
        Ok(first)
    }
}
