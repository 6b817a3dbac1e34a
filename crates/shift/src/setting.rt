use crate::log::read_bay;
use crate::tables::Tables;
use anyhow::{Result, bail};
use bays::bay::Bay;
use games::deal::signing::sign;
use games::deal::{Deal, Terms};
use games::sheet_machine::SheetMachine;
use games::watched::Watched;
use negotiation::negotiator::{Negotiator, Settlement};
use negotiation::refusals::Refusal;
use planning::plans::Plans;
use reading::phase_table::PhaseTable;
use reading::sides::Sides;
use std::alloc::Global;
use std::fmt::{self, Formatter, Write};

/// What a shift is played with: the bay's games and phase table, what its machines settle on, and their tables, slow ones and solved ones.
#[derive(Drop)]
pub(crate) struct Setting {
    pub(crate) heap: Global,
    pub(crate) games: Sides<Watched<SheetMachine>>,
    pub(crate) table: PhaseTable,
    pub(crate) deal: Deal,
    pub(crate) settlement: Settlement,
    pub(crate) slow: Tables,
    pub(crate) solved: Tables,
}

/// Each side relies on just what the other promises.
fn terms(promises: Sides<u32>) -> Sides<Terms> {
    Sides {
        first: Terms {
            promise: promises.first,
            reliance: promises.second,
        },
        second: Terms {
            promise: promises.second,
            reliance: promises.first,
        },
    }
}

/// Both sides' solved tables.
fn solve(heap: Global, bytes: &[u8], terms: Sides<Terms>) -> Result<Tables> {
    let Ok(plans) = Plans::make(heap, bytes, terms)? else {
        bail!("the deal cannot be planned for");
    };
    let Sides { first, second } = plans.sides;
    let records = Sides {
        first: first.record,
        second: second.record,
    };
    Ok(Tables { records })
}

impl Setting {
    /// The setting for the bay of an input, or why its machines settle on nothing.
    pub(crate) fn make(heap: Global, bytes: &[u8]) -> Result<Result<Setting, Refusal>> {
        let settlement = match Negotiator::new(heap)?.negotiate(bytes) {
            Ok(settlement) => settlement,
            Err(refusal) => return Ok(Err(refusal)),
        };
        let terms = terms(settlement.promises);
        let Bay { games, table } = read_bay(heap, bytes)?;
        let Ok(deal) = sign(&table, terms) else {
            bail!("the deal cannot be signed");
        };
        let solved = solve(heap, bytes, terms)?;
        let slow = solved.slow(heap)?;
        Ok(Ok(Setting {
            heap,
            games,
            table,
            deal,
            settlement,
            slow,
            solved,
        }))
    }

    /// How many ticks a shift is played for: enough for two goals of each machine, but no more than 40.
    pub(crate) fn ticks(&self) -> u16 {
        let Sides { first, second } = self.settlement.bounds;
        first
            .max(second)
            .saturating_mul(2)
            .saturating_add(4)
            .clamp(8, 40)
    }
}

impl fmt::Display for Setting {
    fn fmt<W: Write>(&self, f: &mut Formatter<W>) -> fmt::Result {
        let Settlement {
            promises,
            tries,
            bounds,
        } = self.settlement;
        writeln!(
            f,
            "lift and shuttle settle on deal {} {}, the first of {tries} tried that serves both",
            promises.first, promises.second
        )?;
        writeln!(
            f,
            "their best tables: lift at a goal in at most {} ticks, shuttle in at most {}",
            bounds.first, bounds.second
        )
    }
}
