use crate::inspection_tests::{marks, says};
use inspection::kinds::Kind;
use std::test::Fail;

/// One sheet for each number of a fault.
const REFUSED: [(Kind, &[u8], &str); 11] = [
    (
        Kind::Machine,
        &[2, 0, 2, 2, 0],
        "refused 1 at byte 5\nA machine sheet has at least 8 bytes; this one has 5. Pass the whole of it.\n",
    ),
    (
        Kind::Machine,
        &[2, 0, 5, 2, 0, 0, 0, 0],
        "refused 2 at byte 2\nThe number of own signals is not 1 to 4. Put a value in range there.\n",
    ),
    (
        Kind::Phases,
        &[1, 2, 2, 0],
        "refused 3 at byte 4\nThe length does not fit the sizes in its fields. Pass the whole of it with nothing behind it, or correct its sizes.\n",
    ),
    (
        Kind::Marks(4),
        &[0; 60],
        "refused 3 at byte 60\nA mark sheet has 64 bytes; this one has 60. Pass the whole of it with nothing behind it, or correct its sizes.\n",
    ),
    (
        Kind::Machine,
        &[4, 0, 1, 1, 0, 0, 0, 0, 0, 1, 2, 8],
        "refused 4 at byte 11\nThe label of state 3 is above 7. Put a value in range there.\n",
    ),
    (
        Kind::Machine,
        &[1, 0, 1, 1, 0, 0, 2, 0, 0, 0, 0, 0, 0, 0, 0, 1, 0],
        "refused 4 at byte 15\nThe target of move 1 is not a state of the machine. Put a value in range there.\n",
    ),
    (
        Kind::Rule(1),
        &[1, 0, 0, 0, 0, 0, 0, 0, 0, 1, 0, 0],
        "refused 4 at byte 9\nThe next state of state 0 on label 5 is not a state of the automaton. Put a value in range there.\n",
    ),
    (
        Kind::Phases,
        &[1, 2, 2, 0, 0, 1, 0],
        "refused 4 at byte 5\nThe phase after phase 0 on signals 1 and 0 is not a phase of the table. Put a value in range there.\n",
    ),
    (
        Kind::Record,
        &[1, 0, 2, 1, 0, 1, 0, 0, 0, 0],
        "refused 4 at byte 5\nThe choice for state 0 in phase 1 is neither a signal nor absent. Put a value in range there.\n",
    ),
    (
        Kind::Machine,
        &[1, 0, 2, 1, 0, 0, 2, 0, 0, 1, 0, 0, 0, 0, 0, 0, 0],
        "refused 5 at byte 11\nMove 1 does not come after the move before it. List each move once, by key, then by target.\n",
    ),
    (
        Kind::Rule(200),
        &[2, 0, 0, 0, 0, 0, 0, 0, 0, 0, 0, 0, 0, 0, 0, 0, 0, 0, 0, 0],
        "refused 7 at byte 0\nThe machine's 200 states times the automaton's 2 are above 256. Use a machine or an automaton with fewer states.\n",
    ),
];

#[test]
fn refused(rt: HostRuntime) -> Result<(), Fail> {
    for (kind, bytes, text) in REFUSED {
        says(&rt, rt.alloc(), kind, bytes, text)?;
    }
    Ok(())
}

#[test]
fn refused_marks(rt: HostRuntime) -> Result<(), Fail> {
    let stray =
        "refused 4 at byte 32\nState 5 is marked as a goal, but the machine has 4 states. Put a value in range there.\n";
    says(
        &rt,
        rt.alloc(),
        Kind::Marks(4),
        &marks(0b0001, 0b0010_0010),
        stray,
    )?;
    let both =
        "refused 6 at byte 0\nState 2 is marked forbidden and as a goal. Take the state out of one of the two sets.\n";
    says(
        &rt,
        rt.alloc(),
        Kind::Marks(4),
        &marks(0b0101, 0b0110),
        both,
    )
}

#[test]
fn too_long(rt: HostRuntime) -> Result<(), Fail> {
    let heap = rt.alloc();
    let long = vec![in heap; 0; 40_001]?;
    let text =
        "refused 3 at byte 40001\nA sheet has at most 40,000 bytes; this one has more. Pass the whole of it with nothing behind it, or correct its sizes.\n";
    says(&rt, heap, Kind::Machine, long.as_slice(), text)?;
    // One byte less is read, and refused for what it says.
    let text =
        "refused 2 at byte 0\nThe number of states is not 1 to 256. Put a value in range there.\n";
    says(&rt, heap, Kind::Machine, &long.as_slice()[1..], text)
}
