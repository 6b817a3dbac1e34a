use crate::checking_tests::{deal, table};
use crate::replays::replay_toggles;
use cell::calls::{Answer, Offer, Report};
use cell::cell::Cell;
use cell::faults::CellFault;
use games::deal::Deal;
use games::marked::Marked;
use games::sheet_machine::SheetMachine;
use reading::phase_table::PhaseTable;
use reading::sides::Sides;
use std::alloc::Global;
use std::test::Fail;

/// A value of each side.
fn both<T>(first: T, second: T) -> Sides<T> {
    Sides { first, second }
}

#[test]
fn six_calls_to_two_toggles(rt: HostRuntime) -> Result<(), Fail> {
    let [first, second, third, fourth, fifth, sixth] = replay_toggles(rt.alloc())?;
    assert_eq!(rt; first, Answer::Offered(Ok(both(6, 6))));
    assert_eq!(rt; second, Answer::Offered(Ok(both(2, 2))));
    assert_eq!(rt;
        third,
        Answer::Offered(Err(CellFault::RankRises { side: 0 }))
    );
    assert_eq!(rt;
        fourth,
        Answer::Reported(Err(CellFault::NoSuchMove { side: 0 }))
    );
    assert_eq!(rt; fifth, Answer::Reported(Ok(both(1, 1))));
    assert_eq!(rt; sixth, Answer::Ranks(both(0, 0)));
    Ok(())
}

// three states; where both show the same signal the machine goes to state 2, else to the state that side 0's signal names
const LEADER: [u8; 59] = [
    3, 0, 2, 2, 0, 0, 12, 0, 0, 0, 0, 0, 0, 1, 0, 2, 0, 3, 0, 4, 0, 5, 0, 6, 0, 7, 0, 8, 0, 9, 0,
    10, 0, 11, 0, 2, 0, 0, 0, 1, 0, 2, 0, 2, 0, 0, 0, 1, 0, 2, 0, 2, 0, 0, 0, 1, 0, 2, 0,
];

const FOLLOWER: [u8; 59] = [
    3, 0, 2, 2, 0, 0, 12, 0, 0, 0, 0, 0, 0, 1, 0, 2, 0, 3, 0, 4, 0, 5, 0, 6, 0, 7, 0, 8, 0, 9, 0,
    10, 0, 11, 0, 2, 0, 1, 0, 0, 0, 2, 0, 2, 0, 1, 0, 0, 0, 2, 0, 2, 0, 1, 0, 0, 0, 2, 0,
];

/// The machine of a sheet; its state 2 is forbidden, and state 1 is the goal.
fn machine(heap: Global, sheet: &[u8]) -> Result<Marked<SheetMachine>, Fail> {
    let mut marks = [0; 64];
    marks[0] = 4;
    marks[32] = 2;
    let mut machine = SheetMachine::new(heap)?;
    let _ = machine.load(sheet);
    let mut game = Marked::new(machine);
    let _ = game.mark(&marks);
    Ok(game)
}

/// A record that keeps states 0 and 1, by its choices in both phases and the ranks of state 0 there.
fn keeping(choices: [u8; 2], ranks: [u8; 2]) -> [u8; 22] {
    let [first, second] = choices;
    let [before, after] = ranks;
    [
        3, 0, 2, 2, first, second, first, second, 255, 255, before, 0, after, 0, 0, 0, 0, 0, 255,
        255, 255, 255,
    ]
}

/// An offer of a record to each side.
fn offer<'a>(
    table: &'a PhaseTable,
    deal: &'a Deal,
    first: &'a [u8],
    second: &'a [u8],
) -> Offer<'a> {
    Offer {
        table,
        deal,
        records: both(first, second),
    }
}

/// The bay of two phases that is shown from the definitions, with machines that were read.
#[test]
fn a_bay_of_two_phases_runs_on(rt: HostRuntime) -> Result<(), Fail> {
    let heap = rt.alloc();
    let table = table(&[2, 2, 2, 0, 1, 0, 0, 1, 1, 0, 1]);
    let deal = deal(&table, (33, 18), (18, 33))?;
    let (leader, follower) = (machine(heap, &LEADER)?, machine(heap, &FOLLOWER)?);
    let mut cell = Cell::new(heap, leader, follower)?;
    let (first, second) = (keeping([0, 1], [5, 3]), keeping([1, 0], [6, 2]));
    let high = offer(&table, &deal, &first, &second);
    assert_eq!(rt; cell.offer(high), Ok(both(5, 6)));
    assert_eq!(rt; cell.signals(), both(0, 1));
    let away = Report { states: both(0, 0) };
    assert_eq!(rt; cell.report(away), Ok(both(1, 0)));
    assert_eq!(rt; cell.phase(), 1);
    assert_eq!(rt; cell.ranks(), both(3, 2));
    assert_eq!(rt; cell.offer(high), Err(CellFault::RankRises { side: 0 }));
    let (first, second) = (keeping([0, 1], [3, 1]), keeping([1, 0], [2, 1]));
    let low = offer(&table, &deal, &first, &second);
    assert_eq!(rt; cell.offer(low), Ok(both(3, 2)));
    assert_eq!(rt; cell.phase(), 0);
    let apart = Report { states: both(0, 1) };
    assert_eq!(rt; cell.report(apart), Err(CellFault::NoSuchMove { side: 1 }));
    assert_eq!(rt; cell.report(away), Ok(both(1, 0)));
    assert_eq!(rt; cell.waits(), both(2, 2));
    let goal = Report { states: both(1, 1) };
    assert_eq!(rt; cell.report(goal), Ok(both(0, 1)));
    assert_eq!(rt; cell.waits(), both(0, 0));
    assert_eq!(rt; cell.phase(), 0);
    assert_eq!(rt; cell.states(), both(1, 1));
    Ok(())
}
