mod read;

ghost use Rattle.reading.specs.Marks.{Inside, Apart};

/// A mark sheet that was read: sets of forbidden states and of goals, for a number of states.
#[derive(Clone, Copy)]
pub struct MarkSheet {
    states: u16,
    // a bit for each of 256 states, as the format has them, with no heap
    forbidden: [u8; 32],
    goals: [u8; 32],
    ghost forbidden_inside: { Inside states forbidden },
    ghost goals_inside: { Inside states goals },
    ghost apart: { Apart forbidden goals },
}
