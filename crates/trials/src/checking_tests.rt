use crate::deal_tests::signed;
use crate::samples::{RULE, TOGGLE};
use checking::check::check;
use checking::faults::CheckFault;
use checking::reach::reach;
use games::deal::Deal;
use games::sheet_machine::SheetMachine;
use games::watched::Watched;
use reading::phase_table::PhaseTable;
use std::alloc::Global;
use std::test::Fail;

/// The toggle watched by its rule sheet: under signals 1 and 1 states 0 and 1 move to 3, and 2 and 3 to 0; 1 and 3 are goals.
pub(crate) fn toggle(heap: Global) -> Result<Watched<SheetMachine>, Fail> {
    let mut machine = SheetMachine::new(heap)?;
    let _ = machine.load(&TOGGLE);
    let mut game = Watched::new(machine);
    let _ = game.watch(&RULE);
    Ok(game)
}

/// One phase with two signals each way, or two phases where the signals of both sides as one number give the next.
pub(crate) fn table(bytes: &[u8]) -> PhaseTable {
    let mut table = PhaseTable::new();
    let _ = table.read(bytes);
    table
}

pub(crate) const ONE_PHASE: [u8; 7] = [1, 2, 2, 0, 0, 0, 0];

/// Phase 1 after signals 1 and 1, else phase 0.
const TWO_PHASES: [u8; 11] = [2, 2, 2, 0, 0, 0, 1, 0, 0, 0, 1];

pub(crate) fn deal(
    table: &PhaseTable,
    first: (u32, u32),
    second: (u32, u32),
) -> Result<Deal, Fail> {
    signed(table, first, second).map_err(|_| Fail::new("not signed"))
}

/// What reach makes of a buffer of nines.
fn reached(heap: Global, bytes: &[u8], promise: u32, side: u8) -> Result<([u8; 8], u8), Fail> {
    let game = toggle(heap)?;
    let table = table(bytes);
    let deal = deal(&table, (promise, promise), (promise, promise))?;
    let mut buffer = [9; 8];
    let size = 4 * usize::from(table.phases());
    let number = match reach(&game, &table, &deal, side, &mut buffer[..size.min(8)]) {
        Ok(()) => 0,
        Err(fault) => fault.number(),
    };
    Ok((buffer, number))
}

#[test]
fn reach_marks_what_can_come_up(rt: HostRuntime) -> Result<(), Fail> {
    let heap = rt.alloc();
    assert_eq!(rt;
        reached(heap, &ONE_PHASE, 2, 0)?,
        ([1, 0, 0, 1, 9, 9, 9, 9], 0)
    );
    assert_eq!(rt;
        reached(heap, &ONE_PHASE, 1, 0)?,
        ([1, 0, 0, 0, 9, 9, 9, 9], 0)
    );
    assert_eq!(rt;
        reached(heap, &ONE_PHASE, 3, 1)?,
        ([1, 0, 0, 1, 9, 9, 9, 9], 0)
    );
    // both sides toggle in phase 0 and stay in phase 1: 0 in phase 0, then 3 in phase 1, then 3 in phase 0, then 0 in phase 1
    assert_eq!(rt;
        reached(heap, &TWO_PHASES, 18, 0)?,
        ([1, 1, 0, 0, 0, 0, 1, 1], 0)
    );
    Ok(())
}

#[test]
fn reach_refuses(rt: HostRuntime) -> Result<(), Fail> {
    let heap = rt.alloc();
    assert_eq!(rt; reached(heap, &ONE_PHASE, 2, 2)?, ([9; 8], 10));
    let game = toggle(heap)?;
    let table = table(&ONE_PHASE);
    let deal = deal(&table, (2, 2), (2, 2))?;
    for size in 0..9 {
        let mut buffer = [9; 8];
        let told = reach(&game, &table, &deal, 0, &mut buffer[..size.min(8)]);
        assert_eq!(rt;
            told.map_err(|fault| fault.number()),
            if size == 4 { Ok(()) } else { Err(22) }
        );
        assert_eq!(rt; buffer[0] == 9, size != 4);
    }
    Ok(())
}

/// Number, state, phase, partner signal and next state of a fault.
fn values(fault: CheckFault) -> (u8, u16, u16, u16, u16) {
    (
        fault.number(),
        fault.state(),
        fault.phase(),
        fault.partner(),
        fault.next(),
    )
}

#[test]
fn check_tells_values(rt: HostRuntime) -> Result<(), Fail> {
    let game = toggle(rt.alloc())?;
    let table = table(&ONE_PHASE);
    let deal = deal(&table, (2, 2), (2, 2))?;
    let ranked = |a: u8, b: u8, c: u8, d: u8| [4, 0, 1, 2, 1, 1, 1, 1, a, 0, b, 0, c, 0, d, 0];
    let told = |bytes: &[u8]| check(&game, &table, &deal, 0, bytes).map_err(values);
    assert_eq!(rt; told(&ranked(5, 0, 6, 0)), Ok(6));
    assert_eq!(rt; told(&ranked(0, 0, 2, 0)), Err((16, 0, 0, 65535, 65535)));
    assert_eq!(rt; told(&ranked(1, 0, 1, 0)), Err((19, 2, 0, 1, 0)));
    assert_eq!(rt; told(&[4, 0, 1]), Err((1, 65535, 65535, 65535, 65535)));
    assert_eq!(rt;
        check(&game, &table, &deal, 2, &[]).map_err(values),
        Err((10, 65535, 65535, 65535, 65535))
    );
    Ok(())
}
