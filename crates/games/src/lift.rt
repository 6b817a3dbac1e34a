mod moves;

ghost use Rattle.std.specs.Prelude.{◌≤◌};

/// A lift that is empty or loaded; its state is twice the floor, plus 1 if it is loaded.
#[derive(Clone, Copy)]
pub struct Lift {
    floors: u8,
    signals: u8,
    ghost some_floors: { 2 ≤ floors },
    ghost few_floors: { floors ≤ 32 },
    ghost some_signals: { 2 ≤ signals },
    ghost few_signals: { signals ≤ 4 },
}
