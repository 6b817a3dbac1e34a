ghost use Rattle.std.specs.Prelude.{◌≡◌, true, IfOk};
ghost use Rattle.reading.specs.Sides.{both};
ghost use Rattle.games.specs.Listings.{listed_model, parked};
ghost use Rattle.games.specs.SheetMachines.{machine_of};
ghost use Rattle.checking.specs.Arenas.{arena, suits};
ghost use Rattle.checking.specs.Controllers.{Controlled};
ghost use Rattle.negotiation.specs.Negotiations.{Negotiates, Reached, Settles};

use crate::refusals::Refusal;
use bays::bay::Bay;
use checking::faults::SearchFault;
use checking::search::{Agreement, SearchWorkspace, search};
use checking::solve::{Workspace, solve};
use games::deal::Deal;
use games::machine::{Game, Machine};
use games::sheet_machine::SheetMachine;
use reading::phase_table::PhaseTable;
use reading::records::{LONGEST, length};
use reading::sides::Sides;
use std::alloc::{AllocError, Global};

/// As many tries as a search can be allowed: there are never more candidates.
const ALLOWANCE: u32 = 65_535;

/// What both sides settle on: a promise each, on which the other relies; how many candidates were tried; and how many ticks, at most,
/// each side's solved controller is from a goal.
#[derive(Clone, Copy, PartialEq, Eq, Debug)]
pub struct Settlement {
    pub promises: Sides<u32>,
    pub tries: u16,
    pub bounds: Sides<u16>,
}

/// Room for a negotiation, taken before, so that negotiating takes no memory.
#[derive(Drop)]
pub struct Negotiator {
    machines: Sides<SheetMachine>,
    room: Room,
}

/// Room to search and to solve.
#[derive(Drop)]
struct Room {
    searching: SearchWorkspace,
    solving: Workspace,
}

/// The bound of the solved record for a side that has a controller.
fn bound<G: Game>(
    workspace: &mut Workspace,
    game: &G,
    table: &PhaseTable,
    deal: &Deal,
    side: u8,
) -> u16
    requires suits { suits (G.Machine.meaning game.now) table.now deal.now side ≡ true }
    requires controlled { Controlled (arena (G.Machine.meaning game.now) (G.Game.marks game.now) table.now deal.now side) }
    ensures { Reached (G.Machine.meaning game.now) (G.Game.marks game.now) table.now deal.now side result }
{
    let size = length(game.states(), table.phases());
    let mut room = [0; LONGEST];
    let record = &mut room[..size];
    // there is a controller, and the room is of its length
    solve(workspace, game, table, deal, side, record).unwrap()
}

/// What both sides settle on, or why the search answers no deal.
fn settle<G: Game, H: Game>(
    room: &mut Room,
    first: &G,
    second: &H,
    table: &PhaseTable,
) -> Result<Settlement, SearchFault>
    ensures { Settles (both (G.Machine.meaning first.now) (H.Machine.meaning second.now)) (both (G.Game.marks first.now) (H.Game.marks second.now)) table.now result }
{
    let Agreement { deal, tries } = search(&mut room.searching, first, second, table, ALLOWANCE)?;
    Ok(Settlement {
        promises: Sides {
            first: deal.promise(0),
            second: deal.promise(1),
        },
        tries,
        bounds: Sides {
            first: bound(&mut room.solving, first, table, &deal, 0),
            second: bound(&mut room.solving, second, table, &deal, 1),
        },
    })
}

impl Negotiator {
    /// Room for the largest bay.
    pub fn new(heap: Global) -> Result<Negotiator, AllocError>
        ensures { IfOk result (λ n. (machine_of n.machines.first ≡ listed_model parked) × (machine_of n.machines.second ≡ listed_model parked)) }
    {
        Ok(Negotiator {
            machines: Sides {
                first: SheetMachine::new(heap)?,
                second: SheetMachine::new(heap)?,
            },
            room: Room {
                searching: SearchWorkspace::new(heap)?,
                solving: Workspace::new(heap)?,
            },
        })
    }

    /// What both sides of an input's bay settle on, or the first refusal.
    pub fn negotiate(self, bytes: &[u8]) -> Result<Settlement, Refusal>
        ensures { Negotiates bytes.now result }
    {
        let Negotiator { machines, mut room } = self;
        let bay = Bay::read(machines, bytes)?;
        let Sides { first, second } = &bay.games;
        let settlement = settle(&mut room, first, second, &bay.table)?;
        Ok(settlement)
    }
}
