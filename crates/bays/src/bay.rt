ghost use Rattle.std.specs.Prelude.{◌≡◌, IfOk};
ghost use Rattle.bays.specs.Inputs.{parts_in};
ghost use Rattle.bays.specs.Bays.{Holds, bay_fault, refused};

use crate::faults::BayFault;
use crate::input::Input;
use games::sheet_machine::SheetMachine;
use games::watched::Watched;
use reading::phase_table::PhaseTable;
use reading::sides::Sides;

/// A bay: both sides' games, each a machine watched by its rule, and the phase table that they share.
#[derive(Drop)]
pub struct Bay {
    pub games: Sides<Watched<SheetMachine>>,
    pub table: PhaseTable,
}

impl Bay {
    /// The bay of an input, its sheets read in turn. Two machines are handed in for their room.
    pub fn read(machines: Sides<SheetMachine>, bytes: &[u8]) -> Result<Bay, BayFault>
        ensures first { refused result ≡ bay_fault bytes.now }
        ensures value { IfOk result (Holds (parts_in bytes.now)) }
    {
        let input = Input::cut(bytes).map_err(BayFault::Lengths)?;
        let Sides { first, second } = machines;
        let first = Watched::read(first, input.machines.first, input.rules.first);
        let first = first.map_err(BayFault::First)?;
        let second = Watched::read(second, input.machines.second, input.rules.second);
        let second = second.map_err(BayFault::Second)?;
        let table = PhaseTable::parse(input.table).map_err(BayFault::Table)?;
        let games = Sides { first, second };
        Ok(Bay { games, table })
    }
}
