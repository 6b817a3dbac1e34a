mod judge;
mod note;

ghost use Rattle.std.specs.Prelude.{◌≡◌, vec_len};

use crate::search::MOST;
use crate::snapshot::Snapshot;
use std::alloc::{AllocError, Global};

/// One side's player in a search: its game, and for each place of a candidate whether it has a controller there, as far as is known.
#[derive(Drop)]
pub(crate) struct Player {
    pub(crate) snapshot: Snapshot,
    verdicts: Vec<Option<bool>>,
    ghost long: { vec_len verdicts ≡ 65535 },
}

impl Player {
    /// Room for the largest game and the most candidates.
    pub(crate) fn new(heap: Global) -> Result<Player, AllocError> {
        Ok(Player {
            snapshot: Snapshot::new(heap)?,
            verdicts: vec![in heap; None; MOST]?,
        })
    }
}
