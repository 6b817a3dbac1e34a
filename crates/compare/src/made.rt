use anyhow::Result;
use drawn::draws::{self, Size};
use games::lift::Lift;
use games::machine::Machine;
use games::marked::Marked;
use games::sheet_machine::SheetMachine;
use games::watched::Watched;
use rival::arena::Arena;
use rival::random::Random;
use std::alloc::Global;

// Each makes a machine through its public calls, and the arena from the same bytes or numbers.

pub fn sheet(heap: Global, random: &mut Random, size: Size) -> Result<(SheetMachine, Arena)> {
    let bytes = draws::sheet(heap, random, size)?;
    let mut machine = SheetMachine::new(heap)?;
    machine.load(bytes.as_slice())?;
    Ok((machine, Arena::of_sheet(heap, bytes.as_slice())?))
}

pub fn lift(heap: Global, floors: u8, signals: u8) -> Result<(Lift, Arena)> {
    Ok((
        Lift::new(floors, signals)?,
        Arena::lift(heap, floors, signals)?,
    ))
}

pub fn marked<M: Machine + Drop>(
    heap: Global,
    random: &mut Random,
    (machine, below): (M, Arena),
) -> Result<(Marked<M>, Arena)> {
    let bytes = draws::marks(heap, random, below.states)?;
    let mut game = Marked::new(machine);
    game.mark(bytes.as_slice())?;
    Ok((game, below.marked(heap, bytes.as_slice())?))
}

pub fn watched<M: Machine + Drop>(
    heap: Global,
    random: &mut Random,
    (machine, below): (M, Arena),
) -> Result<(Watched<M>, Arena)> {
    let bytes = draws::rule(heap, random, below.states)?;
    let mut game = Watched::new(machine);
    game.watch(bytes.as_slice())?;
    Ok((game, below.watched(heap, bytes.as_slice())?))
}
