use crate::changes::{Case, NONE, long, told, with};
use crate::samples::{RULE, TOGGLE};
use reading::machine_sheet::MachineSheet;
use reading::mark_sheet::MarkSheet;
use reading::rule_sheet::RuleSheet;
use std::test::Fail;

fn machine_fault(bytes: &[u8]) -> (u8, u16) {
    match MachineSheet::read(bytes) {
        Ok(_) => (0, 0),
        Err(f) => told(Some(f)),
    }
}

fn mark_fault(bytes: &[u8], states: u16) -> (u8, u16) {
    told(MarkSheet::read(bytes, states).err())
}

fn rule_fault(bytes: &[u8], states: u16) -> (u8, u16) {
    told(RuleSheet::read(bytes, states).err())
}

#[test]
fn machine_fields_and_entries(rt: HostRuntime) {
    let cases: [Case; 21] = [
        (NONE, NONE, (0, 0)),
        ((0, 0), (2, 0), (2, 0)),
        ((1, 1), (2, 5), (2, 0)),
        ((0, 0), (1, 1), (3, 42)),
        ((0, 1), (1, 1), (2, 0)),
        ((2, 0), (3, 0), (2, 2)),
        ((3, 5), (4, 2), (2, 3)),
        ((4, 2), (7, 16), (2, 4)),
        ((6, 1), (7, 16), (2, 6)),
        ((6, 0), (7, 16), (3, 42)),
        ((6, 7), (9, 8), (3, 42)),
        ((8, 7), (9, 7), (0, 0)),
        ((9, 8), (24, 8), (4, 9)),
        ((8, 8), (9, 8), (4, 8)),
        ((24, 8), (40, 2), (4, 24)),
        ((40, 2), (41, 0), (4, 40)),
        ((12, 0), (40, 2), (5, 12)),
        ((12, 0), (28, 1), (0, 0)),
        ((26, 1), (12, 0), (5, 12)),
        ((28, 2), (14, 0), (4, 28)),
        ((11, 1), (26, 9), (4, 10)),
    ];
    for case in cases {
        let mut bytes = TOGGLE;
        with(&mut bytes, case.0);
        with(&mut bytes, case.1);
        assert_eq!(rt; machine_fault(&bytes), case.2);
    }
}

#[test]
fn machine_says(rt: HostRuntime) -> Result<(), Fail> {
    let Ok(sheet) = MachineSheet::read(&TOGGLE) else {
        return Err(Fail::new("refused"));
    };
    let frame = sheet.frame();
    assert_eq!(rt;
        (frame.states, frame.own, frame.partner, frame.start),
        (2, 2, 2, 0)
    );
    assert_eq!(rt; sheet.moves(), 8);
    assert_eq!(rt; (sheet.label(0), sheet.label(1), sheet.label(2)), (0, 1, 0));
    assert_eq!(rt; (sheet.entry(3).key, sheet.entry(3).target), (3, 1));
    assert_eq!(rt; (sheet.entry(8).key, sheet.entry(8).target), (0, 0));
    assert_eq!(rt; machine_fault(&[]), (1, 0));
    assert_eq!(rt; machine_fault(&TOGGLE[0..7]), (1, 7));
    assert_eq!(rt; machine_fault(&TOGGLE[0..8]), (3, 8));
    assert_eq!(rt; machine_fault(&TOGGLE[0..41]), (3, 41));
    let heap = rt.alloc();
    assert_eq!(rt; machine_fault(&long(heap, &TOGGLE, 1)?), (3, 43));
    assert_eq!(rt; machine_fault(&long(heap, &TOGGLE, 65536)?), (3, 65535));
    assert_eq!(rt; machine_fault(&long(heap, &[], 65536)?), (2, 0));
    Ok(())
}

#[test]
fn machine_sizes_are_plain_numbers(rt: HostRuntime) -> Result<(), Fail> {
    let Ok(sheet) = MachineSheet::read(&TOGGLE) else {
        return Err(Fail::new("refused"));
    };
    assert_eq!(rt;
        (sheet.states, sheet.own, sheet.partner, sheet.start),
        (2, 2, 2, 0)
    );
    assert_eq!(rt; sheet.moves, 8);
    // set on a copy, they change no answer
    let mut copy = sheet;
    copy.states = 1;
    copy.own = 4;
    copy.partner = 3;
    copy.start = 9;
    copy.moves = 0;
    assert_eq!(rt;
        (copy.states, copy.own, copy.partner, copy.start),
        (1, 4, 3, 9)
    );
    assert_eq!(rt; copy.moves, 0);
    assert_eq!(rt; (copy.label(1), copy.entry(3).target), (1, 1));
    assert_eq!(rt; (copy.labels().len(), copy.moves()), (2, 8));
    assert_eq!(rt; copy.frame(), sheet.frame());
    Ok(())
}

#[test]
fn marks(rt: HostRuntime) -> Result<(), Fail> {
    let mut bytes = [0; 64];
    bytes[0] = 5;
    bytes[32] = 10;
    assert_eq!(rt; mark_fault(&bytes, 4), (0, 0));
    assert_eq!(rt; mark_fault(&bytes, 3), (4, 32));
    assert_eq!(rt; mark_fault(&bytes, 2), (4, 0));
    assert_eq!(rt; mark_fault(&bytes, 0), (4, 0));
    assert_eq!(rt; mark_fault(&bytes, 65535), (0, 0));
    bytes[1] = 1;
    bytes[33] = 1;
    assert_eq!(rt; mark_fault(&bytes, 9), (6, 1));
    assert_eq!(rt; mark_fault(&bytes, 8), (4, 1));
    bytes[32] = 11;
    assert_eq!(rt; mark_fault(&bytes, 9), (6, 0));
    bytes[63] = 128;
    assert_eq!(rt; mark_fault(&bytes, 255), (4, 63));
    assert_eq!(rt; mark_fault(&bytes, 256), (6, 0));
    assert_eq!(rt; mark_fault(&[], 4), (3, 0));
    assert_eq!(rt; mark_fault(&bytes[0..63], 256), (3, 63));
    let heap = rt.alloc();
    assert_eq!(rt; mark_fault(&long(heap, &bytes, 1)?, 256), (3, 65));
    assert_eq!(rt; mark_fault(&long(heap, &[], 65535)?, 4), (3, 65535));
    assert_eq!(rt; mark_fault(&long(heap, &[], 65600)?, 4), (3, 65535));
    Ok(())
}

#[test]
fn marks_say(rt: HostRuntime) -> Result<(), Fail> {
    let mut bytes = [0; 64];
    bytes[0] = 5;
    bytes[63] = 128;
    let Ok(sheet) = MarkSheet::read(&bytes, 256) else {
        return Err(Fail::new("refused"));
    };
    assert_eq!(rt;
        (sheet.forbidden(0), sheet.forbidden(1), sheet.forbidden(2)),
        (true, false, true)
    );
    assert_eq!(rt;
        (sheet.goal(0), sheet.goal(255), sheet.goal(256)),
        (false, true, false)
    );
    assert_eq!(rt;
        (sheet.forbidden(256), sheet.forbidden(65535)),
        (false, false)
    );
    Ok(())
}

#[test]
fn rules(rt: HostRuntime) -> Result<(), Fail> {
    let cases: [Case; 11] = [
        (NONE, NONE, (0, 0)),
        ((0, 0), (1, 4), (2, 0)),
        ((0, 9), (3, 9), (2, 0)),
        ((1, 4), (3, 2), (2, 1)),
        ((1, 128), (2, 255), (2, 1)),
        ((1, 3), (2, 255), (0, 0)),
        ((3, 2), (4, 2), (2, 3)),
        ((0, 3), (4, 3), (3, 20)),
        ((0, 1), (1, 1), (3, 20)),
        ((4, 2), (19, 2), (4, 4)),
        ((19, 2), NONE, (4, 19)),
    ];
    for case in cases {
        let mut bytes = RULE;
        with(&mut bytes, case.0);
        with(&mut bytes, case.1);
        assert_eq!(rt; rule_fault(&bytes, 128), case.2);
    }
    assert_eq!(rt; rule_fault(&RULE, 129), (7, 0));
    assert_eq!(rt; rule_fault(&RULE, 65535), (7, 0));
    assert_eq!(rt; rule_fault(&[], 2), (1, 0));
    assert_eq!(rt; rule_fault(&RULE[0..3], 2), (1, 3));
    assert_eq!(rt; rule_fault(&RULE[0..19], 2), (3, 19));
    let heap = rt.alloc();
    assert_eq!(rt; rule_fault(&long(heap, &RULE, 1)?, 129), (3, 21));
    assert_eq!(rt; rule_fault(&long(heap, &RULE, 65520)?, 2), (3, 65535));
    assert_eq!(rt; rule_fault(&long(heap, &[], 65536)?, 2), (2, 0));
    Ok(())
}

#[test]
fn rules_say(rt: HostRuntime) -> Result<(), Fail> {
    let Ok(rule) = RuleSheet::read(&RULE, 2) else {
        return Err(Fail::new("refused"));
    };
    assert_eq!(rt; (rule.states(), rule.start()), (2, 0));
    assert_eq!(rt;
        (rule.accepting(0), rule.accepting(1), rule.accepting(8)),
        (false, true, false)
    );
    assert_eq!(rt; (rule.forbidden(0), rule.forbidden(255)), (false, false));
    assert_eq!(rt;
        (rule.next(0, 0), rule.next(0, 1), rule.next(1, 1)),
        (0, 1, 1)
    );
    assert_eq!(rt; (rule.next(2, 1), rule.next(0, 8)), (0, 0));
    Ok(())
}
