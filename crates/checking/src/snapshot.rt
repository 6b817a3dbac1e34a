mod ask;
mod take;

ghost use Rattle.std.specs.Prelude.{◌≡◌, vec_len};
ghost use Rattle.checking.specs.Sources.{Sourced};

use crate::state_set::StateSet;
use reading::machine_sheet::Frame;

/// How many signals there can be.
pub(crate) const SIGNALS: u8 = 4;

/// A game, asked once for all that a solver needs: for each state and both signals the set of next states.
#[derive(Drop)]
pub(crate) struct Snapshot {
    frame: Frame,
    // one piece for the largest game, so that solving takes no memory
    rows: Vec<[[StateSet; 4]; 4]>,
    // for each state the states with a move to it, whichever signals are shown
    sources: Vec<StateSet>,
    forbidden: StateSet,
    goals: StateSet,
    ghost rows_long: { vec_len rows ≡ 256 },
    ghost sources_long: { vec_len sources ≡ 256 },
    ghost sourced: { Sourced frame.states rows.items sources.items },
}
