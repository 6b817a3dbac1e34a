use crate::samples::{RULE, TOGGLE};
use games::deal::Terms;
use reading::sides::Sides;
use review::cases::Case;
use review::texts::review;
use std::alloc::Global;
use std::process::Abort;
use std::test::Fail;

/// A side's promise and its reliance.
fn terms(promise: u32, reliance: u32) -> Terms {
    Terms { promise, reliance }
}

/// A record for side 0 of a bay of one phase, where both sides promise signal 1 alone and rely on it.
/// The side's machine is the watched toggle: under signals 1 and 1 states 0 and 1 move to 3, and 2 and 3 to 0; 1 and 3 are goals.
fn toggle(record: &[u8]) -> Case<'_> {
    Case {
        machine: &TOGGLE,
        rule: &RULE,
        table: &[1, 2, 2, 0, 0, 0, 0],
        side: 0,
        terms: Sides {
            first: terms(2, 2),
            second: terms(2, 2),
        },
        record,
    }
}

fn says(rt: &impl Abort, heap: Global, case: &Case<'_>, text: &str) -> Result<(), Fail> {
    assert_eq!(rt; review(heap, case)?.as_str(), text);
    Ok(())
}

/// Passes with bound 6.
const RANKED: [u8; 16] = [4, 0, 1, 2, 1, 1, 1, 1, 5, 0, 0, 0, 6, 0, 0, 0];

/// Records for the watched toggle: a choice for each of its four states, then a rank of two bytes for each.
const RECORDS: [(&[u8], &str); 10] = [
    (&RANKED, "bound 6\n"),
    (
        &[4, 0, 1, 2, 1, 1, 1, 9, 5, 0, 0, 0, 6, 0, 0, 0],
        "refused 4 at byte 7\nThe record is refused: an entry is out of its range. Put a value in range there.\n",
    ),
    (
        &[2, 0, 1, 2, 1, 1, 5, 0, 0, 0],
        "refused 11\nThe sizes of the record do not fit machine and table. Write the record for this machine and this table.\n",
    ),
    (
        &[4, 0, 1, 2, 1, 1, 255, 1, 5, 0, 0, 0, 6, 0, 0, 0],
        "refused 12\nstate 2, phase 0: only one of choice and rank is absent. Write both, or neither: choice 255 and rank 65,535.\n",
    ),
    (
        &[4, 0, 1, 2, 255, 1, 1, 1, 255, 255, 0, 0, 6, 0, 0, 0],
        "refused 13\nstate 0, phase 0: the start is not kept. Write a choice and a rank for it.\n",
    ),
    (
        &[4, 0, 1, 2, 1, 0, 1, 1, 5, 0, 0, 0, 6, 0, 0, 0],
        "refused 15\nstate 1, phase 0: the choice 0 is not promised. Choose a signal that is promised in this phase.\n",
    ),
    (
        &[4, 0, 1, 2, 1, 1, 1, 1, 0, 0, 0, 0, 2, 0, 0, 0],
        "refused 16\nstate 0, phase 0: the rank 0 is not at a goal. Rank each goal 0, and every other state above 0.\n",
    ),
    (
        &[4, 0, 1, 2, 1, 1, 1, 1, 5, 0, 3, 0, 6, 0, 0, 0],
        "refused 16\nstate 1, phase 0: a goal has rank 3. Rank each goal 0, and every other state above 0.\n",
    ),
    (
        &[4, 0, 1, 2, 1, 1, 1, 255, 5, 0, 0, 0, 6, 0, 255, 255],
        "refused 18\nstate 0, phase 0: under partner signal 1 the next state 3 is not kept in phase 0. Keep that position, or choose another signal.\n",
    ),
    (
        &[4, 0, 1, 2, 1, 1, 1, 1, 1, 0, 0, 0, 1, 0, 0, 0],
        "refused 19\nstate 2, phase 0: under partner signal 1 the next state 0 has rank 1, not below 1. Rank that position lower, or this one higher.\n",
    ),
];

#[test]
fn records(rt: HostRuntime) -> Result<(), Fail> {
    for (record, text) in RECORDS {
        says(&rt, rt.alloc(), &toggle(record), text)?;
    }
    Ok(())
}

#[test]
fn no_side(rt: HostRuntime) -> Result<(), Fail> {
    let case = Case {
        side: 2,
        ..toggle(&RANKED)
    };
    let text =
        "refused 10\nThe side or the sizes of machine, table and deal do not fit. Name side 0 or 1, and a machine and a table whose signals are the same.\n";
    says(&rt, rt.alloc(), &case, text)
}

#[test]
fn forbidden(rt: HostRuntime) -> Result<(), Fail> {
    // label 1 is forbidden, which is that of states 2 and 3
    let case = Case {
        rule: &[2, 2, 2, 0, 0, 1, 0, 0, 0, 0, 0, 0, 0, 1, 0, 0, 0, 0, 0, 0],
        ..toggle(&RANKED)
    };
    let text =
        "refused 14\nstate 2, phase 0: the state is forbidden, yet kept. Leave it out: choice 255 and rank 65,535.\n";
    says(&rt, rt.alloc(), &case, text)
}

#[test]
fn no_move(rt: HostRuntime) -> Result<(), Fail> {
    // the toggle without the move of state 0 under signals 1 and 1, which has key 3
    let case = Case {
        machine: &[
            2, 0, 2, 2, 0, 0, 7, 0, 0, 1, 0, 0, 1, 0, 2, 0, 4, 0, 5, 0, 6, 0, 7, 0, 0, 0, 0, 0, 0,
            0, 1, 0, 1, 0, 1, 0, 0, 0,
        ],
        ..toggle(&RANKED)
    };
    let text =
        "refused 17\nstate 0, phase 0: under partner signal 1 there is no next state. Choose a signal under which the machine can move, or rely on less.\n";
    says(&rt, rt.alloc(), &case, text)
}

/// The record is side 1's: the table reads the partner's signal first. Side 0 shows 1, side 1 shows 0, and phase 1 follows phase 0.
#[test]
fn side_1(rt: HostRuntime) -> Result<(), Fail> {
    let case = Case {
        table: &[2, 2, 2, 0, 0, 1, 0, 0, 0, 0, 0],
        side: 1,
        terms: Sides {
            first: terms(0x22, 0x11),
            second: terms(0x11, 0x22),
        },
        ..toggle(&[
            4, 0, 2, 2, 0, 255, 255, 255, 255, 255, 255, 255, 1, 0, 255, 255, 255, 255, 255, 255,
            255, 255, 255, 255, 255, 255, 255, 255,
        ])
    };
    let text =
        "refused 18\nstate 0, phase 0: under partner signal 1 the next state 0 is not kept in phase 1. Keep that position, or choose another signal.\n";
    says(&rt, rt.alloc(), &case, text)
}

/// What is told of a damaged machine sheet, rule sheet and phase table, of terms that do not meet, and of a damaged record.
const DAMAGED: [&str; 5] = [
    "refused 1 at byte 7\nThe machine sheet is refused: it is shorter than its fixed fields. Pass the whole of it.\n",
    "refused 1 at byte 3\nThe rule sheet is refused: it is shorter than its fixed fields. Pass the whole of it.\n",
    "refused 4 at byte 5\nThe phase table is refused: an entry is out of its range. Put a value in range there.\n",
    "refused 21\nIn phase 0 side 0 promises more than side 1 relies on. Let it promise less there, or the other rely on more.\n",
    "refused 1 at byte 0\nThe record is refused: it is shorter than its fixed fields. Pass the whole of it.\n",
];

/// The first that is refused is told: each case is damaged in what the one after it is, too.
#[test]
fn refused_sheets(rt: HostRuntime) -> Result<(), Fail> {
    let unread = toggle(&[]);
    let apart = Case {
        terms: Sides {
            first: terms(3, 2),
            second: terms(2, 2),
        },
        ..unread
    };
    let tabled = Case {
        table: &[1, 2, 2, 0, 0, 1, 0],
        ..apart
    };
    let ruled = Case {
        rule: &RULE[0..3],
        ..tabled
    };
    let machined = Case {
        machine: &TOGGLE[0..7],
        ..ruled
    };
    let cases = [machined, ruled, tabled, apart, unread];
    for (case, text) in cases.iter().zip(DAMAGED) {
        says(&rt, rt.alloc(), case, text)?;
    }
    Ok(())
}

#[test]
fn refused_terms(rt: HostRuntime) -> Result<(), Fail> {
    // signal 2 of two; no signal at all
    for (first, second, text) in [
        (
            terms(4, 2),
            terms(0, 2),
            "refused 20\nThe terms of side 0 are not as described. Name for each phase some of the signals that there are, and nothing else.\n",
        ),
        (
            terms(2, 2),
            terms(2, 0),
            "refused 20\nThe terms of side 1 are not as described. Name for each phase some of the signals that there are, and nothing else.\n",
        ),
        (
            terms(2, 2),
            terms(3, 2),
            "refused 21\nIn phase 0 side 1 promises more than side 0 relies on. Let it promise less there, or the other rely on more.\n",
        ),
    ] {
        let case = Case {
            terms: Sides { first, second },
            ..toggle(&RANKED)
        };
        says(&rt, rt.alloc(), &case, text)?;
    }
    Ok(())
}
