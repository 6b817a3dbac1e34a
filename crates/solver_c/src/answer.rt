ghost use Rattle.std.specs.Prelude.{◌≡◌, ℕ, List};
ghost use Rattle.checking.specs.Solutions.{Solves};

use crate::Ask;
use crate::bits::BitMachine;
use checking::faults::SolveFault;
use checking::solve::{Workspace, solve};
use games::deal::signing::sign;
use games::deal::{Deal, Terms};
use games::lift::Lift;
use games::machine::{Game, Machine};
use games::marked::Marked;
use games::sheet_machine::SheetMachine;
use games::watched::Watched;
use reading::bytes::byte_at;
use reading::phase_table::PhaseTable;
use reading::sides::Sides;
use std::alloc::Global;

/// The bytes of a question.
#[derive(Clone, Copy)]
pub(crate) struct Sheets<'a> {
    pub(crate) machine: &'a [u8],
    pub(crate) layer: &'a [u8],
    pub(crate) table: &'a [u8],
}

/// The number where there is no memory.
const NO_MEMORY: u8 = 0;

/// The number of bits that are no machine: that of a field out of range.
const NO_MACHINE: u8 = 2;

impl Ask {
    /// Both sides' terms.
    fn terms(&self) -> Sides<Terms>
        ensures promises { (result.first.promise ≡ self.now.promise0) × (result.second.promise ≡ self.now.promise1) }
        ensures reliances { (result.first.reliance ≡ self.now.reliance0) × (result.second.reliance ≡ self.now.reliance1) }
    {
        Sides {
            first: Terms {
                promise: self.promise0,
                reliance: self.reliance0,
            },
            second: Terms {
                promise: self.promise1,
                reliance: self.reliance1,
            },
        }
    }
}

// A refusal is a number throughout, since only that crosses to another language.

/// Solves so often, at least once, in one workspace, and tells the last answer.
fn solve_often<G: Game>(
    workspace: &mut Workspace,
    game: &G,
    table: &PhaseTable,
    deal: &Deal,
    ask: &Ask,
    buffer: &mut [u8],
) -> Result<u16, SolveFault>
    ensures { (old : List ℕ) × Solves (G.Machine.meaning game.now) (G.Game.marks game.now) table.now deal.now ask.now.side old buffer.new result }
{
    for _ in 1..ask.times {
        let _ = solve(workspace, game, table, deal, ask.side, buffer);
    }
    solve(workspace, game, table, deal, ask.side, buffer)
}

/// The answer for a game, under the table in the bytes and the deal on the terms.
fn play<G: Game>(
    heap: Global,
    game: &G,
    ask: &Ask,
    table: &[u8],
    buffer: &mut [u8],
) -> Result<u16, u8> {
    let table = PhaseTable::parse(table).map_err(|fault| fault.number())?;
    let deal = sign(&table, ask.terms()).map_err(|fault| fault.number())?;
    let mut workspace = Workspace::new(heap).map_err(|_| NO_MEMORY)?;
    solve_often(&mut workspace, game, &table, &deal, ask, buffer).map_err(|fault| fault.number())
}

/// The answer for a machine, once its layer is over it.
fn layered<M: Machine + Drop>(
    heap: Global,
    machine: M,
    ask: &Ask,
    sheets: &Sheets<'_>,
    buffer: &mut [u8],
) -> Result<u16, u8> {
    if ask.layer == 0 {
        let mut game = Marked::new(machine);
        game.mark(sheets.layer).map_err(|fault| fault.number())?;
        play(heap, &game, ask, sheets.table, buffer)
    } else {
        let mut game = Watched::new(machine);
        game.watch(sheets.layer).map_err(|fault| fault.number())?;
        play(heap, &game, ask, sheets.table, buffer)
    }
}

/// The bound that solving answers, or the number of the first refusal.
pub(crate) fn answer(
    heap: Global,
    ask: &Ask,
    sheets: &Sheets<'_>,
    buffer: &mut [u8],
) -> Result<u16, u8> {
    match ask.machine {
        0 => {
            let mut machine = SheetMachine::new(heap).map_err(|_| NO_MEMORY)?;
            machine
                .load(sheets.machine)
                .map_err(|fault| fault.number())?;
            layered(heap, machine, ask, sheets, buffer)
        }
        1 => {
            let (floors, signals) = (byte_at(sheets.machine, 0), byte_at(sheets.machine, 1));
            let lift = Lift::new(floors, signals).map_err(|fault| fault.number())?;
            layered(heap, lift, ask, sheets, buffer)
        }
        _ => {
            let machine = BitMachine::read(sheets.machine).ok_or(NO_MACHINE)?;
            layered(heap, machine, ask, sheets, buffer)
        }
    }
}
