ghost use Rattle.std.specs.Prelude.{◌≡◌, IfOk, vec_len};
ghost use Rattle.checking.specs.Solutions.{Solves};

use crate::faults::SolveFault;
use crate::ranking::Ranking;
use crate::seat::Seat;
use crate::snapshot::Snapshot;
use games::deal::Deal;
use games::machine::{Game, Machine};
use reading::faults::check;
use reading::phase_table::PhaseTable;
use reading::records::{Record, length};
use std::alloc::{AllocError, Global};

/// Room for a solver, made once for games of any size; solving itself takes no memory.
#[derive(Drop)]
pub struct Workspace {
    snapshot: Snapshot,
    ranking: Ranking,
}

impl Workspace {
    /// Room for the largest game: 256 states with 16 pairs of signals, 2,048 positions.
    pub fn new(heap: Global) -> Result<Workspace, AllocError>
        ensures { IfOk result (λ w. (vec_len w.snapshot.rows ≡ 256) × (vec_len w.ranking.entries ≡ 2048)) }
    {
        Ok(Workspace {
            snapshot: Snapshot::new(heap)?,
            ranking: Ranking::new(heap)?,
        })
    }
}

/// Writes the solved record for a side into the buffer and answers its bound, or why there is none.
pub fn solve<G: Game>(
    workspace: &mut Workspace,
    game: &G,
    table: &PhaseTable,
    deal: &Deal,
    side: u8,
    buffer: &mut [u8],
) -> Result<u16, SolveFault>
    ensures { Solves (G.Machine.meaning game.now) (G.Game.marks game.now) table.now deal.now side buffer.old buffer.new result }
{
    let seat = Seat {
        game,
        table,
        deal,
        side,
    };
    check(seat.suits(), SolveFault::Sizes)?;
    let size = length(game.states(), table.phases());
    check(buffer.len() == size, SolveFault::Buffer)?;
    workspace.snapshot.take(game);
    let played = Seat {
        game: &workspace.snapshot,
        table,
        deal,
        side,
    };
    workspace.ranking.settle(&played);
    let kept = workspace.ranking.ranks_start(&workspace.snapshot);
    check(kept, SolveFault::NoController)?;
    workspace.ranking.write(&played, buffer);
    // what was written can be read
    Ok(Record::read(buffer).unwrap().bound())
}
