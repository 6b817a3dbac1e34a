ghost use Rattle.review.specs.Verdicts.{told, early_line, Judged};

use crate::cases::Case;
use crate::refusals::Refusal;
use checking::check::check;
use games::deal::signing::sign;
use games::sheet_machine::SheetMachine;
use games::watched::Watched;
use reading::phase_table::PhaseTable;

impl Case<'_> {
    /// The bound of the record, or the first refusal. A machine is handed in for its room.
    pub(crate) fn judge(&self, machine: SheetMachine) -> Result<u16, Refusal>
        ensures { Judged (early_line self.now) self.now (told result) }
    {
        let game = Watched::read(machine, self.machine, self.rule).map_err(Refusal::Sheets)?;
        let table = PhaseTable::parse(self.table).map_err(Refusal::Table)?;
        let deal = sign(&table, self.terms).map_err(Refusal::Terms)?;
        check(&game, &table, &deal, self.side, self.record).map_err(Refusal::Check)
    }
}
