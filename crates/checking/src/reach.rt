mod mark;

ghost use Rattle.std.specs.Prelude.{◌≡◌, length};
ghost use Rattle.checking.specs.Reach.{places, Reaches};

use crate::faults::ReachFault;
use crate::seat::Seat;
use games::deal::Deal;
use games::machine::{Game, Machine};
use reading::faults::check;
use reading::phase_table::PhaseTable;
use reading::records::places;

/// The marks of a seat's positions on the way, a byte for each.
#[derive(Drop)]
struct Marks<'a, G: Machine> {
    seat: Seat<'a, G>,
    bytes: &'a mut [u8],
    ghost long: { length bytes.now ≡ places (G.Machine.meaning seat.game.now) seat.table.now },
}

/// Writes 1 at the place of each position that can come up for a side, and 0 at every other. Of P phases, state s in phase p has place s × P + p.
pub fn reach<G: Game>(
    game: &G,
    table: &PhaseTable,
    deal: &Deal,
    side: u8,
    buffer: &mut [u8],
) -> Result<(), ReachFault>
    ensures { Reaches (G.Machine.meaning game.now) table.now deal.now side buffer.old buffer.new result }
{
    let seat = Seat {
        game,
        table,
        deal,
        side,
    };
    check(seat.suits(), ReachFault::Sizes)?;
    let size = places(game.states(), table.phases());
    check(buffer.len() == size, ReachFault::Buffer)?;
    let mut marks = Marks {
        seat,
        bytes: buffer,
    };
    marks.mark_reached();
    Ok(())
}
