ghost use Rattle.std.specs.Prelude.{◌≡◌, Some, IfOk};
ghost use Rattle.reading.specs.Faults.{numbers, printed};
ghost use Rattle.games.specs.WatchedSheets.{Plays, blame, refused, sheets_fault};

use crate::sheet_machine::SheetMachine;
use crate::watched::Watched;
use reading::faults::ReadFault;
use std::error::Error;
use std::fmt;

/// Why there is no watched machine: which of its two sheets is refused, with the fault.
#[derive(Clone, Copy, PartialEq, Eq, Debug)]
pub enum SheetsFault {
    Machine(ReadFault),
    Rule(ReadFault),
}

impl SheetsFault {
    /// The fault of reading, whichever sheet it is in.
    pub fn reading(&self) -> ReadFault
        ensures { numbers result ≡ (blame self.now).fault }
    {
        match *self {
            SheetsFault::Machine(fault) | SheetsFault::Rule(fault) => fault,
        }
    }
}

impl fmt::Display for SheetsFault {
    ghost output = { λ x. Some (printed (blame x).fault) };

    fn fmt<W: fmt::Write>(&self, f: &mut fmt::Formatter<W>) -> fmt::Result {
        match self {
            SheetsFault::Machine(fault) | SheetsFault::Rule(fault) => write!(f, "{fault}"),
        }
    }
}

impl Error for SheetsFault {}

impl Watched<SheetMachine> {
    /// The machine of a sheet, watched by the automaton of a rule sheet. A machine is handed in for its room.
    pub fn read(
        mut machine: SheetMachine,
        sheet: &[u8],
        rule: &[u8],
    ) -> Result<Watched<SheetMachine>, SheetsFault>
        ensures first { refused result ≡ sheets_fault sheet.now rule.now }
        ensures value { IfOk result (Plays sheet.now rule.now) }
    {
        machine.load(sheet).map_err(SheetsFault::Machine)?;
        let mut game = Watched::new(machine);
        game.watch(rule).map_err(SheetsFault::Rule)?;
        Ok(game)
    }
}
