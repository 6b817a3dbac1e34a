mod ask;
mod layers;
mod settle;
mod write;

ghost use Rattle.std.specs.Prelude.{◌≡◌, length, vec_len};

use crate::state_set::StateSet;
use reading::records::{NO_CHOICE, NO_RANK};

/// What a ranking has for a position.
#[derive(Clone, Copy, PartialEq, Eq, Debug)]
pub(crate) struct Entry {
    pub(crate) rank: u16,
    pub(crate) choice: u8,
}

/// The entry of a position that is not ranked, written to a record as it is: an `Option` would be turned into these two numbers.
const ABSENT: Entry = Entry {
    rank: NO_RANK,
    choice: NO_CHOICE,
};

/// Ranks and choices on the way to a solution, eight places to a state, and for each phase the set of ranked states.
#[derive(Drop)]
pub(crate) struct Ranking {
    // one piece for the largest game, so that solving takes no memory; by places, as a record has them
    entries: Vec<Entry>,
    // one for each phase that there can be, kept beside the entries: the next states of a position are compared with a set by words
    ranked: [StateSet; 8],
    ghost many: { vec_len entries ≡ 2048 },
    ghost eight: { length ranked ≡ 8 },
}
