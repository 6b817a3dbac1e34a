mod answers;
mod load;

ghost use Rattle.std.specs.Prelude.{◌≡◌, ◌≤◌, vec_len, vec_capacity};
ghost use Rattle.reading.specs.Limits.{AllBelow};
ghost use Rattle.games.specs.Listings.{Ascending};

use reading::machine_sheet::{Frame, Move};

/// A machine with the moves of a machine sheet; it has room for the largest from the beginning.
#[derive(Drop)]
pub struct SheetMachine {
    frame: Frame,
    labels: Vec<u8>,
    moves: Vec<Move>,
    ghost labelled: { vec_len labels ≡ frame.states },
    ghost labels_low: { AllBelow 8 labels.items },
    ghost label_room: { 256 ≤ vec_capacity labels },
    ghost ascending: { Ascending moves.items },
    ghost move_room: { 4096 ≤ vec_capacity moves },
}
