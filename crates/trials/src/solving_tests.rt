use crate::checking_tests::{ONE_PHASE, deal, table, toggle};
use checking::solve::{Workspace, solve};
use std::alloc::Global;
use std::process::Abort;
use std::test::Fail;

/// What solving makes of a buffer of nines, for a side of a bay of watched toggles whose sides promise and rely on a set of signals:
/// the bound, or 1,000 and the number of the refusal.
fn solved(heap: Global, set: u32, side: u8, size: usize) -> Result<([u8; 20], u16), Fail> {
    let game = toggle(heap)?;
    let table = table(&ONE_PHASE);
    let deal = deal(&table, (set, set), (set, set))?;
    let mut workspace = Workspace::new(heap)?;
    let mut buffer = [9; 20];
    let part = &mut buffer[..size.min(20)];
    let answer = match solve(&mut workspace, &game, &table, &deal, side, part) {
        Ok(bound) => bound,
        Err(fault) => 1000 + u16::from(fault.number()),
    };
    Ok((buffer, answer))
}

const SOLVED: [u8; 20] = [4, 0, 1, 2, 1, 1, 1, 1, 1, 0, 0, 0, 2, 0, 0, 0, 9, 9, 9, 9];

#[test]
fn solving_finds_the_least_ranks(rt: HostRuntime) -> Result<(), Fail> {
    let heap = rt.alloc();
    assert_eq!(rt; solved(heap, 2, 0, 16)?, (SOLVED, 2));
    assert_eq!(rt; solved(heap, 2, 1, 16)?, (SOLVED, 2));
    Ok(())
}

#[test]
fn solving_refuses_and_leaves_the_buffer(rt: HostRuntime) -> Result<(), Fail> {
    let heap = rt.alloc();
    // the partner may never show signal 1
    assert_eq!(rt; solved(heap, 3, 0, 16)?, ([9; 20], 1023));
    assert_eq!(rt; solved(heap, 1, 0, 16)?, ([9; 20], 1023));
    assert_eq!(rt; solved(heap, 2, 0, 15)?, ([9; 20], 1022));
    assert_eq!(rt; solved(heap, 2, 0, 20)?, ([9; 20], 1022));
    assert_eq!(rt; solved(heap, 2, 2, 16)?, ([9; 20], 1010));
    // the side comes before the buffer
    assert_eq!(rt; solved(heap, 2, 2, 15)?, ([9; 20], 1010));
    Ok(())
}

fn solves_twice(rt: &impl Abort, heap: Global) -> Result<(), Fail> {
    let game = toggle(heap)?;
    let table = table(&ONE_PHASE);
    let (both, one) = (deal(&table, (3, 3), (3, 3))?, deal(&table, (2, 2), (2, 2))?);
    let mut workspace = Workspace::new(heap)?;
    let mut buffer = [9; 16];
    assert!(rt; solve(&mut workspace, &game, &table, &both, 0, &mut buffer).is_err());
    assert_eq!(rt; buffer, [9; 16]);
    assert_eq!(rt;
        solve(&mut workspace, &game, &table, &one, 0, &mut buffer),
        Ok(2)
    );
    assert_eq!(rt; buffer.as_slice(), &SOLVED[..16]);
    Ok(())
}

#[test]
fn a_workspace_serves_again(rt: HostRuntime) -> Result<(), Fail> {
    solves_twice(&rt, rt.alloc())
}
