mod proposal;

ghost use Rattle.std.specs.Prelude.{◌≡◌, is_ok, IfOk, Decides};
ghost use Rattle.checking.specs.Controllers.{plan_in, Bound};
ghost use Rattle.checking.specs.Faults.{told};
ghost use Rattle.checking.specs.Checks.{check_answer, Ranked};

use crate::check::proposal::Proposal;
use crate::faults::CheckFault;
use crate::seat::Seat;
use games::deal::Deal;
use games::machine::{Game, Machine};
use reading::faults;
use reading::phase_table::PhaseTable;
use reading::records::Record;

/// The bound of the ranked controller that bytes hold for a side, or their first fault.
pub fn check<G: Game>(
    game: &G,
    table: &PhaseTable,
    deal: &Deal,
    side: u8,
    bytes: &[u8],
) -> Result<u16, CheckFault>
    ensures first { told result ≡ check_answer (G.Machine.meaning game.now) (G.Game.marks game.now) table.now deal.now side bytes.now }
    ensures ranked { Decides (is_ok result) (Ranked (G.Machine.meaning game.now) (G.Game.marks game.now) table.now deal.now side bytes.now) }
    ensures bound { IfOk result (Bound (plan_in bytes.now)) }
{
    let seat = Seat {
        game,
        table,
        deal,
        side,
    };
    faults::check(seat.suits(), CheckFault::Sizes)?;
    let plan = Record::read(bytes)?;
    let proposal = Proposal { seat, plan };
    faults::check(proposal.sized(), CheckFault::RecordSizes)?;
    proposal.check()?;
    Ok(plan.bound())
}
