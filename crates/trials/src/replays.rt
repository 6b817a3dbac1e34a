ghost use Rattle.std.specs.Prelude.{◌≡◌, map, IfOk};
ghost use Rattle.reading.specs.Sides.{both};
ghost use Rattle.games.specs.Signings.{Dealt};
ghost use Rattle.games.specs.WatchedSheets.{Plays};
ghost use Rattle.checking.specs.Searching.{terms_of};
ghost use Rattle.cell.specs.Logs.{reported};
ghost use Rattle.cell.specs.Cells.{event, told};
ghost use Rattle.trials.specs.Toggles.{toggle, rule, OnePhase};
ghost use Rattle.trials.specs.Replays.{offer, calls, answered};

use crate::samples::{RULE, TOGGLE};
use cell::calls::{Answer, Call, OwnedOffer, Question, Report};
use cell::cell::Room;
use cell::replay::replay;
use games::deal::signing::sign;
use games::deal::{Deal, Terms};
use games::sheet_machine::SheetMachine;
use games::watched::Watched;
use reading::phase_table::PhaseTable;
use reading::sides::Sides;
use std::alloc::{AllocError, Global};

// records of the watched toggle that show signal 1 everywhere: one with ranks 5 0 6 0, and the solved one
const HIGH: [u8; 16] = [4, 0, 1, 2, 1, 1, 1, 1, 5, 0, 0, 0, 6, 0, 0, 0];

const SOLVED: [u8; 16] = [4, 0, 1, 2, 1, 1, 1, 1, 1, 0, 0, 0, 2, 0, 0, 0];

/// The toggle, watched by its rule sheet.
fn toggle(heap: Global) -> Result<Watched<SheetMachine>, AllocError>
    ensures { IfOk result (Plays toggle rule) }
{
    let machine = SheetMachine::new(heap)?;
    Ok(Watched::read(machine, &TOGGLE, &RULE).unwrap())
}

/// One phase, two signals each way.
fn one_phase() -> PhaseTable
    ensures { OnePhase result }
{
    PhaseTable::parse(&[1, 2, 2, 0, 0, 0, 0]).unwrap()
}

/// The deal on signal 1 of both sides.
fn on_signal_1(table: &PhaseTable) -> Deal
    requires { OnePhase table.now }
    ensures { Dealt table.now.sizes (terms_of (both 2 2)) result }
{
    let terms = Terms {
        promise: 2,
        reliance: 2,
    };
    let terms = Sides {
        first: terms,
        second: terms,
    };
    sign(table, terms).unwrap()
}

/// An offer of the same record to both sides.
fn offer(heap: Global, table: &PhaseTable, deal: &Deal, bytes: &[u8]) -> Result<Call, AllocError>
    ensures { IfOk result (λ call. event call ≡ offer table.now deal.now bytes.now) }
{
    let records = Sides {
        first: Vec::from_slice(heap, bytes)?,
        second: Vec::from_slice(heap, bytes)?,
    };
    Ok(Call::Offer(OwnedOffer {
        table: *table,
        deal: *deal,
        records,
    }))
}

/// A report of the states that both machines have come to.
fn report(first: u16, second: u16) -> Call
    ensures { event result ≡ reported (both first second) }
{
    let states = Sides { first, second };
    Call::Report(Report { states })
}

/// The calls that are shown: three offers, two reports and a question.
fn calls(heap: Global, table: &PhaseTable, deal: &Deal) -> Result<[Call; 6], AllocError>
    ensures { IfOk result (λ made. map event made ≡ calls table.now deal.now) }
{
    Ok([
        offer(heap, table, deal, &HIGH)?,
        offer(heap, table, deal, &SOLVED)?,
        offer(heap, table, deal, &HIGH)?,
        report(0, 3),
        report(3, 3),
        Call::Ask(Question::Ranks),
    ])
}

/// What a cell of two toggles, read from their sheets, answers to six calls.
pub fn replay_toggles(heap: Global) -> Result<[Answer; 6], AllocError>
    ensures { IfOk result (λ answers. map told answers ≡ answered) }
{
    let table = one_phase();
    let deal = on_signal_1(&table);
    let calls = calls(heap, &table, &deal)?;
    let room = Room::new(heap)?;
    let (first, second) = (toggle(heap)?, toggle(heap)?);
    // each is replaced
    let mut answers = [Answer::Phase(0); 6];
    replay(room, first, second, &calls, &mut answers);
    Ok(answers)
}
