mod ask;
mod calls;

ghost use Rattle.std.specs.Prelude.{◌≡◌, IfOk};
ghost use Rattle.cell.specs.Logs.{begun};
ghost use Rattle.cell.specs.Cells.{Empty, Made};

use crate::copies::{Copies, Mode, Standing};
use crate::kept::Kept;
use games::deal::Terms;
use games::deal::signing::sign;
use games::machine::{Game, Machine};
use reading::phase_table::PhaseTable;
use reading::sides::Sides;
use std::alloc::{AllocError, Global};

/// Two games that run side by side under the offer in force: idle until the first accepted offer, and running ever after.
#[derive(Drop)]
pub struct Cell<A: Game + Drop, B: Game + Drop> {
    mode: Mode,
    copies: Copies,
    first: A,
    second: B,
}

/// Room for a cell, taken before, so that no call takes memory.
#[derive(Drop)]
pub struct Room {
    records: Sides<Kept>,
}

impl Room {
    /// Room for the longest records.
    pub fn new(heap: Global) -> Result<Room, AllocError>
        ensures { IfOk result Empty }
    {
        Ok(Room {
            records: Sides {
                first: Kept::new(heap)?,
                second: Kept::new(heap)?,
            },
        })
    }
}

/// Where no machine has moved yet.
fn begun(states: Sides<u16>) -> Standing
    ensures { result ≡ begun states }
{
    Standing {
        states,
        phase: 0,
        waits: Sides {
            first: 0,
            second: 0,
        },
        bounds: Sides {
            first: 0,
            second: 0,
        },
    }
}

/// Copies that no offer has filled yet: one phase, one signal each way, and a deal on them.
fn unfilled(room: Room, standing: Standing) -> Copies
    ensures { result.standing ≡ standing }
{
    let table = PhaseTable::new();
    let terms = Terms {
        promise: 1,
        reliance: 1,
    };
    let terms = Sides {
        first: terms,
        second: terms,
    };
    Copies {
        standing,
        table,
        deal: sign(&table, terms).unwrap(),
        records: room.records,
    }
}

impl<A: Game + Drop, B: Game + Drop> Cell<A, B> {
    /// An idle cell of two games, both at their start.
    pub fn new(heap: Global, first: A, second: B) -> Result<Cell<A, B>, AllocError>
        ensures { IfOk result (Made A.Machine.meaning A.Game.marks B.Machine.meaning B.Game.marks first second) }
    {
        Ok(Cell::within(Room::new(heap)?, first, second))
    }

    /// The same in room that was taken before.
    pub fn within(room: Room, first: A, second: B) -> Cell<A, B>
        ensures { Made A.Machine.meaning A.Game.marks B.Machine.meaning B.Game.marks first second result }
    {
        let standing = begun(Sides {
            first: first.start(),
            second: second.start(),
        });
        Cell {
            mode: Mode::Idle,
            copies: unfilled(room, standing),
            first,
            second,
        }
    }
}
