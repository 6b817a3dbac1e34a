use crate::samples::{RULE, TOGGLE};
use inspection::kinds::{Kind, Request};
use inspection::machines::{lift, product};
use inspection::sheets::{Sheet, inspect};
use reading::mark_sheet::MarkSheet;
use std::alloc::Global;
use std::process::Abort;
use std::test::Fail;

/// What inspection says of a sheet is a text.
pub(crate) fn says(
    rt: &impl Abort,
    heap: Global,
    kind: Kind,
    bytes: &[u8],
    text: &str,
) -> Result<(), Fail> {
    assert_eq!(rt; inspect(heap, kind, bytes)?.as_str(), text);
    Ok(())
}

/// A mark sheet with one byte of forbidden states and one of goals.
pub(crate) fn marks(forbidden: u8, goals: u8) -> [u8; 64] {
    let mut bytes = [0; 64];
    bytes[0] = forbidden;
    bytes[32] = goals;
    bytes
}

#[test]
fn machine(rt: HostRuntime) -> Result<(), Fail> {
    let bytes = [
        3, 0, 2, 1, 1, 0, 6, 0, 0, 3, 7, 0, 0, 0, 0, 1, 0, 1, 0, 1, 0, 3, 0, 1, 0, 2, 0, 0, 0, 1,
        0, 2, 0, 0, 0,
    ];
    let text = "machine sheet
states              3
own signals         2
partner signals     1
start               1
moves               6

state 0 (label 0):
  own 0, partner 0: to 1 or 2
  own 1, partner 0: to 0, 1 or 2
state 1 (label 3, start):
  own 1, partner 0: to 0
  no other move
state 2 (label 7): no moves
";
    says(&rt, rt.alloc(), Kind::Machine, &bytes, text)
}

#[test]
fn mark(rt: HostRuntime) -> Result<(), Fail> {
    let text = "mark sheet

forbidden: none
goals (2):
   1   3
";
    says(&rt, rt.alloc(), Kind::Marks(4), &marks(0, 0b1010), text)
}

#[test]
fn held_sheet(rt: HostRuntime) -> Result<(), Fail> {
    let sheet = Sheet::Marks(MarkSheet::new(5));
    let text = sheet.to_string(rt.alloc())?;
    assert_eq!(rt; text.as_str(), "\nforbidden: none\ngoals: none\n");
    Ok(())
}

#[test]
fn rule(rt: HostRuntime) -> Result<(), Fail> {
    let bytes = [2, 2, 0, 0, 0, 1, 0, 0, 0, 0, 0, 0, 0, 1, 0, 0, 0, 0, 0, 0];
    let text = "rule sheet
states            2
forbidden labels  none

next state, by state and label
state |  0  1  2  3  4  5  6  7
    0 |  0  1  0  0  0  0  0  0  start
    1 |  0  1  0  0  0  0  0  0  accepting
";
    says(&rt, rt.alloc(), Kind::Rule(2), &bytes, text)
}

#[test]
fn phases(rt: HostRuntime) -> Result<(), Fail> {
    let text = "phase table
phases             1
signals of side 0  2
signals of side 1  2

next phase, by the signals of side 0 (rows) and side 1 (columns)

phase 0 |  0  1
      0 |  0  0
      1 |  0  0
";
    says(&rt, rt.alloc(), Kind::Phases, &[1, 2, 2, 0, 0, 0, 0], text)
}

#[test]
fn records(rt: HostRuntime) -> Result<(), Fail> {
    let text = "controller record
states     4
phases     1
signals    2

state  phase  choice   rank
    0      0       1      1
    1      0       1      0
    2      0       1      2
    3      0       1      0

bound: 2 (the largest kept rank)
";
    let bytes = [4, 0, 1, 2, 1, 1, 1, 1, 1, 0, 0, 0, 2, 0, 0, 0];
    says(&rt, rt.alloc(), Kind::Record, &bytes, text)
}

#[test]
fn absent(rt: HostRuntime) -> Result<(), Fail> {
    let text = "controller record
states     1
phases     2
signals    1

state  phase  choice   rank
    0      0  not kept
    0      1    none    258

bound: 258 (the largest kept rank)
";
    let bytes = [1, 0, 2, 1, 255, 255, 255, 255, 2, 1];
    says(&rt, rt.alloc(), Kind::Record, &bytes, text)
}

/// What a line of words after the program's name asks for.
fn asked(heap: Global, line: &str) -> Result<Option<Request>, Fail> {
    let mut words = Vec::new(heap);
    for word in line.split_whitespace() {
        words.push(String::from_str(heap, word)?)?;
    }
    Ok(Request::parse(words.as_slice()))
}

#[test]
fn requests(rt: HostRuntime) -> Result<(), Fail> {
    let heap = rt.alloc();
    assert!(rt; matches!(asked(heap, "--help")?, Some(Request::Help)));
    assert!(rt; matches!(asked(heap, "machine")?, Some(Request::Sheet(Kind::Machine))));
    assert!(rt;
        matches!(
            asked(heap, "rule 256")?,
            Some(Request::Sheet(Kind::Rule(256)))
        )
    );
    for line in [
        "",
        "machine 4",
        "marks",
        "marks 0",
        "rule 257",
        "rule 4 5",
        "sheet",
    ] {
        assert!(rt; asked(heap, line)?.is_none(), "{}", line);
    }
    Ok(())
}

#[test]
fn products(rt: HostRuntime) -> Result<(), Fail> {
    let heap = rt.alloc();
    let text = "machine watched by an automaton
states              4
own signals         2
partner signals     2
start               0

state 0 (machine 0, automaton 0, label 0):
  own 0, partner 0: to 0
  own 0, partner 1: to 0
  own 1, partner 0: to 0
  own 1, partner 1: to 3
";
    assert!(rt; product(heap, &TOGGLE, &RULE)?.as_str().starts_with(text));
    assert_eq!(rt;
        product(heap, &TOGGLE[0..7], &[])?.as_str(),
        "refused 1 at byte 7\nA machine sheet has at least 8 bytes; this one has 7. Pass the whole of it.\n"
    );
    assert_eq!(rt;
        product(heap, &TOGGLE, &RULE[0..3])?.as_str(),
        "refused 1 at byte 3\nA rule sheet has at least 4 bytes; this one has 3. Pass the whole of it.\n"
    );
    Ok(())
}

#[test]
fn lifts(rt: HostRuntime) -> Result<(), Fail> {
    let heap = rt.alloc();
    assert_eq!(rt;
        lift(heap, 33, 9)?.as_str(),
        "refused 2 at byte 0\nA lift has 2 to 32 floors. Put a value in range there.\n"
    );
    let text = "lift
states              4
own signals         4
partner signals     2
start               0

state 0 (floor 0, empty, label 1):
  own 0, partner 0: to 0
  own 0, partner 1: to 0
  own 1, partner 0: to 2
  own 1, partner 1: to 2
  own 3, partner 1: to 1
";
    assert!(rt; lift(heap, 2, 2)?.as_str().starts_with(text));
    Ok(())
}
