use crate::changes::{Case, NONE, long, told, with};
use crate::samples::PHASES;
use reading::phase_table::PhaseTable;
use reading::records::{Position, Record};
use std::test::Fail;

// four states, one phase, two signals; position 2 is not kept
const PLAN: [u8; 16] = [4, 0, 1, 2, 1, 1, 255, 1, 1, 1, 0, 0, 255, 255, 0, 0];

fn phase_fault(bytes: &[u8]) -> (u8, u16) {
    told(PhaseTable::new().read(bytes).err())
}

fn record_fault(bytes: &[u8]) -> (u8, u16) {
    match Record::read(bytes) {
        Ok(_) => (0, 0),
        Err(f) => told(Some(f)),
    }
}

#[test]
fn phases(rt: HostRuntime) -> Result<(), Fail> {
    let cases: [Case; 9] = [
        (NONE, NONE, (0, 0)),
        ((0, 0), (1, 0), (2, 0)),
        ((0, 9), (2, 9), (2, 0)),
        ((1, 5), (2, 0), (2, 1)),
        ((2, 5), (3, 9), (2, 2)),
        ((0, 1), (4, 9), (3, 7)),
        ((1, 2), (2, 1), (0, 0)),
        ((4, 2), (6, 2), (4, 4)),
        ((6, 2), NONE, (4, 6)),
    ];
    for case in cases {
        let mut bytes = PHASES;
        with(&mut bytes, case.0);
        with(&mut bytes, case.1);
        assert_eq!(rt; phase_fault(&bytes), case.2);
    }
    assert_eq!(rt; phase_fault(&[]), (1, 0));
    assert_eq!(rt; phase_fault(&PHASES[0..2]), (1, 2));
    assert_eq!(rt; phase_fault(&PHASES[0..6]), (3, 6));
    let heap = rt.alloc();
    assert_eq!(rt; phase_fault(&long(heap, &PHASES, 1)?), (3, 8));
    assert_eq!(rt; phase_fault(&long(heap, &PHASES, 65530)?), (3, 65535));
    assert_eq!(rt; phase_fault(&long(heap, &[], 65536)?), (2, 0));
    Ok(())
}

#[test]
fn phase_places(rt: HostRuntime) {
    let mut place = PhaseTable::new();
    assert_eq!(rt;
        (place.phases(), place.signals(0), place.signals(1)),
        (1, 1, 1)
    );
    assert_eq!(rt; place.next(0, 0, 0), 0);
    assert!(rt; place.read(&PHASES).is_ok());
    assert_eq!(rt;
        (place.phases(), place.signals(0), place.signals(1)),
        (2, 1, 2)
    );
    assert_eq!(rt; (place.next(0, 0, 0), place.next(0, 0, 1)), (0, 1));
    assert_eq!(rt; (place.next(1, 0, 0), place.next(1, 0, 1)), (1, 0));
    assert_eq!(rt;
        (
            place.next(2, 0, 0),
            place.next(0, 1, 1),
            place.next(0, 0, 2),
        ),
        (0, 0, 0)
    );
    assert!(rt; place.read(&[]).is_err());
    assert_eq!(rt; (place.phases(), place.next(0, 0, 1)), (2, 1));
}

#[test]
fn records(rt: HostRuntime) -> Result<(), Fail> {
    let cases: [Case; 12] = [
        (NONE, NONE, (0, 0)),
        ((0, 0), (2, 0), (2, 0)),
        ((1, 1), (2, 9), (2, 0)),
        ((2, 9), (3, 0), (2, 2)),
        ((2, 0), (3, 5), (2, 2)),
        ((3, 5), (4, 9), (2, 3)),
        ((3, 0), NONE, (2, 3)),
        ((0, 2), (2, 2), (0, 0)),
        ((2, 2), (4, 9), (3, 16)),
        ((4, 2), (7, 2), (4, 4)),
        ((7, 254), (15, 255), (4, 7)),
        ((5, 255), (15, 255), (0, 0)),
    ];
    for case in cases {
        let mut bytes = PLAN;
        with(&mut bytes, case.0);
        with(&mut bytes, case.1);
        assert_eq!(rt; record_fault(&bytes), case.2);
    }
    assert_eq!(rt; record_fault(&[]), (1, 0));
    assert_eq!(rt; record_fault(&PLAN[0..3]), (1, 3));
    assert_eq!(rt; record_fault(&PLAN[0..15]), (3, 15));
    let heap = rt.alloc();
    assert_eq!(rt; record_fault(&long(heap, &PLAN, 1)?), (3, 17));
    assert_eq!(rt; record_fault(&long(heap, &PLAN, 65530)?), (3, 65535));
    assert_eq!(rt; record_fault(&long(heap, &[], 65536)?), (2, 0));
    Ok(())
}

fn at(state: u16, phase: u8) -> Position {
    Position { state, phase }
}

#[test]
fn records_say(rt: HostRuntime) -> Result<(), Fail> {
    let Ok(plan) = Record::read(&PLAN) else {
        return Err(Fail::new("refused"));
    };
    assert_eq!(rt; (plan.states, plan.phases, plan.signals), (4, 1, 2));
    assert_eq!(rt; (plan.choice(at(0, 0)), plan.choice(at(2, 0))), (1, 255));
    assert_eq!(rt; (plan.choice(at(0, 1)), plan.choice(at(4, 0))), (255, 255));
    assert_eq!(rt;
        (
            plan.rank(at(0, 0)),
            plan.rank(at(2, 0)),
            plan.rank(at(3, 0))
        ),
        (257, 65535, 0)
    );
    assert_eq!(rt; (plan.rank(at(0, 1)), plan.rank(at(4, 0))), (65535, 65535));
    assert_eq!(rt; plan.bound(), 257);
    assert_eq!(rt; (plan.choices().len(), plan.ranks().len()), (4, 8));
    assert_eq!(rt;
        (
            plan.choices().first().copied(),
            plan.ranks().last().copied(),
        ),
        (Some(1), Some(0))
    );
    Ok(())
}
