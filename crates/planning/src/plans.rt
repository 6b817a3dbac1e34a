ghost use Rattle.std.specs.Prelude.{◌≡◌, IfOk};
ghost use Rattle.games.specs.Machines.{Model};
ghost use Rattle.planning.specs.Plans.{Answered, Planned};

use crate::refusals::Refusal;
use bays::bay::Bay;
use checking::faults::SolveFault;
use checking::solve::{Workspace, solve};
use games::deal::signing::sign;
use games::deal::{Deal, Terms};
use games::machine::{Game, Machine};
use games::sheet_machine::SheetMachine;
use reading::phase_table::PhaseTable;
use reading::records::length;
use reading::sides::Sides;
use std::alloc::{AllocError, Global};

/// What solving answers for a side, and the record that it wrote.
#[derive(Drop)]
pub struct Plan {
    pub answer: Result<u16, SolveFault>,
    /// The solved record; zeros where there is none.
    pub record: Vec<u8>,
}

/// Both sides' plans.
#[derive(Drop)]
pub struct Plans {
    pub sides: Sides<Plan>,
}

/// The plan for one side.
fn make_plan<G: Game>(
    heap: Global,
    workspace: &mut Workspace,
    game: &G,
    table: &PhaseTable,
    deal: &Deal,
    side: u8,
) -> Result<Plan, AllocError>
    ensures { IfOk result (Answered (G.Machine.meaning game.now) (G.Game.marks game.now) table.now deal.now side) }
{
    let mut record = vec![in heap; 0; length(game.states(), table.phases())]?;
    let answer = solve(workspace, game, table, deal, side, record.as_mut_slice());
    Ok(Plan { answer, record })
}

impl Plans {
    /// Both sides' plans for the bay of an input, under the deal on both sides' terms; or the first refusal.
    pub fn make(
        heap: Global,
        bytes: &[u8],
        terms: Sides<Terms>,
    ) -> Result<Result<Plans, Refusal>, AllocError>
        ensures { IfOk result (Planned bytes.now terms) }
    {
        let machines = Sides {
            first: SheetMachine::new(heap)?,
            second: SheetMachine::new(heap)?,
        };
        let mut workspace = Workspace::new(heap)?;
        let Bay { games, table } = match Bay::read(machines, bytes) {
            Ok(bay) => bay,
            Err(fault) => return Ok(Err(Refusal::Bay(fault))),
        };
        let deal = match sign(&table, terms) {
            Ok(deal) => deal,
            Err(fault) => return Ok(Err(Refusal::Terms(fault))),
        };
        let sides = Sides {
            first: make_plan(heap, &mut workspace, &games.first, &table, &deal, 0)?,
            second: make_plan(heap, &mut workspace, &games.second, &table, &deal, 1)?,
        };
        Ok(Ok(Plans { sides }))
    }
}
