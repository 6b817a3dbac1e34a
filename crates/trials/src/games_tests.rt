use crate::samples::{RULE, TOGGLE};
use games::lift::Lift;
use games::machine::{Game, Machine};
use games::marked::Marked;
use games::sheet_machine::SheetMachine;
use games::watched::Watched;
use std::alloc::{AllocError, Global};
use std::test::Fail;

fn toggle(heap: Global) -> Result<SheetMachine, AllocError> {
    let mut machine = SheetMachine::new(heap)?;
    let _ = machine.load(&TOGGLE);
    Ok(machine)
}

/// How many next states there are, and the sum of them.
fn nexts<M: Machine>(machine: &M, state: u16, own: u8, partner: u8) -> (u16, u16) {
    let mut count: u16 = 0;
    let mut sum: u16 = 0;
    for next in 0..300 {
        if machine.may_move(state, own, partner, next) {
            count = count.saturating_add(1);
            sum = sum.saturating_add(next);
        }
    }
    (count, sum)
}

/// How many goals there are below 300, and how many forbidden states below the number of states.
fn marks<G: Game>(game: &G) -> (u16, u16) {
    let mut goals: u16 = 0;
    let mut forbidden: u16 = 0;
    for state in 0..300 {
        if game.goal(state) {
            goals = goals.saturating_add(1);
        }
        if game.forbidden(state) && state < game.states() {
            forbidden = forbidden.saturating_add(1);
        }
    }
    (goals, forbidden)
}

#[test]
fn sheet_machines(rt: HostRuntime) -> Result<(), Fail> {
    let mut machine = SheetMachine::new(rt.alloc())?;
    assert_eq!(rt;
        (machine.states(), machine.own(), machine.partner()),
        (1, 1, 1)
    );
    assert_eq!(rt;
        (machine.start(), machine.label(0), machine.label(1)),
        (0, 0, 0)
    );
    assert_eq!(rt; nexts(&machine, 0, 0, 0), (1, 0));
    assert!(rt; machine.load(&TOGGLE[0..41]).is_err());
    assert_eq!(rt; (machine.states(), nexts(&machine, 0, 0, 0)), (1, (1, 0)));
    assert!(rt; machine.load(&TOGGLE).is_ok());
    assert_eq!(rt;
        (machine.states(), machine.own(), machine.partner()),
        (2, 2, 2)
    );
    assert_eq!(rt;
        (machine.label(0), machine.label(1), machine.label(2)),
        (0, 1, 0)
    );
    assert_eq!(rt;
        (nexts(&machine, 0, 1, 1), nexts(&machine, 1, 1, 1)),
        ((1, 1), (1, 0))
    );
    assert_eq!(rt;
        (nexts(&machine, 0, 1, 0), nexts(&machine, 1, 0, 1)),
        ((1, 0), (1, 1))
    );
    assert_eq!(rt;
        (nexts(&machine, 2, 0, 0), nexts(&machine, 0, 2, 0)),
        ((0, 0), (0, 0))
    );
    assert!(rt; machine.load(&[]).is_err());
    assert_eq!(rt; (machine.states(), nexts(&machine, 0, 1, 1)), (2, (1, 1)));
    Ok(())
}

#[test]
fn lifts(rt: HostRuntime) -> Result<(), Fail> {
    assert_eq!(rt; refused(1, 1), (2, 0));
    assert_eq!(rt;
        (refused(33, 2), refused(2, 1), refused(32, 5)),
        ((2, 0), (2, 1), (2, 1))
    );
    let Ok(lift) = Lift::new(4, 2) else {
        return Err(Fail::new("refused"));
    };
    assert_eq!(rt;
        (lift.states(), lift.own(), lift.partner(), lift.start()),
        (8, 4, 2, 0)
    );
    assert_eq!(rt;
        (lift.label(0), lift.label(1), lift.label(2), lift.label(3)),
        (1, 2, 0, 0)
    );
    assert_eq!(rt;
        (lift.label(5), lift.label(6), lift.label(7), lift.label(8)),
        (0, 3, 4, 0)
    );
    Ok(())
}

#[test]
fn lift_moves(rt: HostRuntime) -> Result<(), Fail> {
    let Ok(lift) = Lift::new(4, 2) else {
        return Err(Fail::new("refused"));
    };
    assert_eq!(rt;
        (nexts(&lift, 0, 0, 1), nexts(&lift, 5, 0, 0)),
        ((1, 0), (1, 5))
    );
    assert_eq!(rt;
        (nexts(&lift, 0, 1, 0), nexts(&lift, 1, 1, 0)),
        ((2, 6), (1, 3))
    );
    assert_eq!(rt;
        (nexts(&lift, 4, 1, 0), nexts(&lift, 6, 1, 1)),
        ((1, 6), (0, 0))
    );
    assert_eq!(rt;
        (nexts(&lift, 7, 2, 0), nexts(&lift, 1, 2, 0)),
        ((1, 5), (0, 0))
    );
    assert_eq!(rt;
        (nexts(&lift, 0, 3, 1), nexts(&lift, 0, 3, 0)),
        ((1, 1), (0, 0))
    );
    assert_eq!(rt;
        (nexts(&lift, 7, 3, 1), nexts(&lift, 2, 3, 1)),
        ((1, 6), (0, 0))
    );
    assert_eq!(rt;
        (
            nexts(&lift, 8, 0, 0),
            nexts(&lift, 0, 4, 0),
            nexts(&lift, 0, 0, 2),
        ),
        ((0, 0), (0, 0), (0, 0))
    );
    Ok(())
}

fn refused(floors: u8, signals: u8) -> (u8, u16) {
    match Lift::new(floors, signals) {
        Ok(_) => (0, 0),
        Err(fault) => (fault.number(), fault.place()),
    }
}

#[test]
fn watched_toggle(rt: HostRuntime) -> Result<(), Fail> {
    let mut game = Watched::new(toggle(rt.alloc())?);
    assert_eq!(rt; (game.states(), game.start(), marks(&game)), (2, 0, (0, 0)));
    assert!(rt; game.watch(&RULE[0..19]).is_err());
    assert_eq!(rt; (game.states(), marks(&game)), (2, (0, 0)));
    assert!(rt; game.watch(&RULE).is_ok());
    assert_eq!(rt; (game.states(), game.start(), marks(&game)), (4, 0, (2, 0)));
    assert_eq!(rt;
        (game.goal(0), game.goal(1), game.goal(2), game.goal(3)),
        (false, true, false, true)
    );
    assert_eq!(rt; (game.label(1), game.label(2), game.label(4)), (0, 1, 0));
    assert_eq!(rt;
        (
            nexts(&game, 0, 1, 1),
            nexts(&game, 3, 1, 1),
            nexts(&game, 2, 0, 0),
        ),
        ((1, 3), (1, 0), (1, 3))
    );
    Ok(())
}

#[test]
fn marked_over_watched(rt: HostRuntime) -> Result<(), Fail> {
    let mut watched = Watched::new(toggle(rt.alloc())?);
    assert!(rt; watched.watch(&RULE).is_ok());
    let mut game = Marked::new(watched);
    assert_eq!(rt; (game.states(), marks(&game)), (4, (0, 0)));
    let mut sheet = [0; 64];
    sheet[0] = 2;
    sheet[32] = 5;
    assert!(rt; game.mark(&sheet).is_ok());
    assert_eq!(rt;
        (game.goal(0), game.goal(1), game.goal(2), game.forbidden(1)),
        (true, false, true, true)
    );
    assert_eq!(rt; (marks(&game), nexts(&game, 0, 1, 1)), ((2, 1), (1, 3)));
    sheet[32] = 17;
    assert!(rt; game.mark(&sheet).is_err());
    assert_eq!(rt; marks(&game), (2, 1));
    Ok(())
}

#[test]
fn watched_twice(rt: HostRuntime) -> Result<(), Fail> {
    let mut below = Watched::new(toggle(rt.alloc())?);
    assert!(rt; below.watch(&RULE).is_ok());
    let mut game = Watched::new(below);
    assert!(rt; game.watch(&RULE).is_ok());
    assert_eq!(rt; (game.states(), game.start()), (8, 0));
    assert_eq!(rt; (marks(&game), nexts(&game, 0, 1, 1)), ((4, 0), (1, 7)));
    assert_eq!(rt;
        (game.goal(6), game.goal(7), nexts(&game, 7, 1, 1)),
        (false, true, (1, 0))
    );
    Ok(())
}

#[test]
fn watched_over_marked_lift(rt: HostRuntime) -> Result<(), Fail> {
    let Ok(lift) = Lift::new(32, 2) else {
        return Err(Fail::new("refused"));
    };
    let mut marked = Marked::new(lift);
    let mut sheet = [0; 64];
    sheet[32] = 1;
    assert!(rt; marked.mark(&sheet).is_ok());
    assert_eq!(rt; marks(&marked), (1, 0));
    let mut game = Watched::new(marked);
    // label 4, loaded on the top floor, leads to the accepting state; label 2 is forbidden
    let rule = [2, 2, 4, 0, 0, 0, 0, 0, 1, 0, 0, 0, 0, 0, 0, 0, 1, 0, 0, 0];
    assert!(rt; game.watch(&rule).is_ok());
    assert_eq!(rt;
        (game.states(), game.start(), marks(&game)),
        (128, 0, (64, 2))
    );
    assert_eq!(rt;
        (nexts(&game, 0, 1, 0), nexts(&game, 124, 3, 1)),
        ((2, 12), (1, 127))
    );
    assert_eq!(rt;
        (
            game.goal(126),
            game.goal(127),
            game.forbidden(2),
            game.forbidden(4),
        ),
        (false, true, true, false)
    );
    // five automaton states on 64 states are too many
    let large = [
        5, 0, 0, 0, 0, 0, 0, 0, 0, 0, 0, 0, 0, 0, 0, 0, 0, 0, 0, 0, 0, 0, 0, 0, 0, 0, 0, 0, 0, 0,
        0, 0, 0, 0, 0, 0, 0, 0, 0, 0, 0, 0, 0, 0,
    ];
    assert!(rt; game.watch(&large).is_err());
    assert_eq!(rt; game.states(), 128);
    Ok(())
}
