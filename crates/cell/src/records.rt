ghost use Rattle.std.specs.Prelude.{◌≡◌};
ghost use Rattle.reading.specs.Records.{parts_in, inside, choice_at, rank_at};

use reading::bytes::{byte_at, pair_at};
use reading::records::{NO_CHOICE, NO_RANK, Position, places};

// A record that was checked is asked at one position, without being read over again: reading it takes a step for each of its choices.

/// Where the choices of a record begin.
const HEAD: usize = 4;

/// Whether a record has a position.
fn has(bytes: &[u8], at: Position) -> bool
    ensures { result ≡ inside (parts_in bytes.now) at.state at.phase }
{
    at.state < pair_at(bytes, 0) && at.phase < byte_at(bytes, 2)
}

/// The signal that a record shows at a position; 255 where there is none.
pub(crate) fn choice_in(bytes: &[u8], at: Position) -> u8
    ensures { result ≡ choice_at (parts_in bytes.now) at.state at.phase }
{
    if has(bytes, at) {
        byte_at(bytes, HEAD + at.place(byte_at(bytes, 2)))
    } else {
        NO_CHOICE
    }
}

/// The rank that a record has at a position; 65,535 where there is none.
pub(crate) fn rank_in(bytes: &[u8], at: Position) -> u16
    ensures { result ≡ rank_at (parts_in bytes.now) at.state at.phase }
{
    if has(bytes, at) {
        let phases = byte_at(bytes, 2);
        let ranks = HEAD + places(pair_at(bytes, 0), phases);
        pair_at(bytes, ranks + 2 * at.place(phases))
    } else {
        NO_RANK
    }
}
