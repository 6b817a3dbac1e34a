use crate::samples::{RULE, TOGGLE};
use games::deal::Terms;
use planning::plans::Plans;
use reading::sides::Sides;
use std::alloc::Global;
use std::process::Abort;
use std::test::Fail;

const TABLE: [u8; 7] = [1, 2, 2, 0, 0, 0, 0];

/// A bay of two watched toggles, with one byte changed.
pub(crate) fn bay(heap: Global, place: usize, byte: u8) -> Result<Vec<u8>, Fail> {
    let mut bytes = Vec::new(heap);
    bytes.extend_from_slice(&[42, 0, 20, 0, 42, 0, 20, 0, 7, 0])?;
    for sheet in [TOGGLE.as_slice(), &RULE, &TOGGLE, &RULE, &TABLE] {
        bytes.extend_from_slice(sheet)?;
    }
    if place < bytes.len() {
        bytes[place] = byte;
    }
    Ok(bytes)
}

/// Both sides promise a set of signals and rely on another.
fn text(heap: Global, bytes: &[u8], promise: u32, reliance: u32) -> Result<String, Fail> {
    let terms = Terms { promise, reliance };
    let both = Sides {
        first: terms,
        second: terms,
    };
    match Plans::make(heap, bytes, both)? {
        Ok(plans) => Ok(plans.text(heap)?),
        Err(refusal) => Ok(refusal.text(heap)?),
    }
}

const TABLES: &str = "\
side 0: from anywhere that it keeps, a goal in at most 2 ticks
  state 0, phase 0: show signal 1, goal in at most 1 tick
  state 1, phase 0: show signal 1, at a goal
  state 2, phase 0: show signal 1, goal in at most 2 ticks
  state 3, phase 0: show signal 1, at a goal
side 1: from anywhere that it keeps, a goal in at most 2 ticks
  state 0, phase 0: show signal 1, goal in at most 1 tick
  state 1, phase 0: show signal 1, at a goal
  state 2, phase 0: show signal 1, goal in at most 2 ticks
  state 3, phase 0: show signal 1, at a goal
";

/// Texts by promise and reliance.
const DEALS: [(u32, u32, &str); 4] = [
    (2, 2, TABLES),
    (
        3,
        3,
        "side 0: refused 23: it has no controller. Let it promise more or rely on less, or ease its rules.\nside 1: refused 23: it has no controller. Let it promise more or rely on less, or ease its rules.\n",
    ),
    (
        3,
        2,
        "refused 21\nIn phase 0 side 0 promises more than side 1 relies on. Let it promise less there, or the other rely on more.\n",
    ),
    (
        0,
        2,
        "refused 20\nThe terms of side 0 are not as described. Name for each phase some of the signals that there are, and nothing else.\n",
    ),
];

/// Texts by a byte that is changed.
const DAMAGES: [(usize, u8, &str); 5] = [
    (
        0,
        41,
        "refused 3 at byte 141\nFive lengths and the five sheets do not make up the input. Pass all of them and nothing else, at most 40,000 bytes.\n",
    ),
    (
        10,
        0,
        "refused 2 at byte 0\nThe machine sheet of side 0 is refused: a field is out of its range. Put a value in range there.\n",
    ),
    (
        52,
        9,
        "refused 2 at byte 0\nThe rule sheet of side 0 is refused: a field is out of its range. Put a value in range there.\n",
    ),
    (
        72,
        0,
        "refused 2 at byte 0\nThe machine sheet of side 1 is refused: a field is out of its range. Put a value in range there.\n",
    ),
    (
        140,
        1,
        "refused 4 at byte 6\nThe phase table is refused: an entry is out of its range. Put a value in range there.\n",
    ),
];

fn plans_deals(rt: &impl Abort, heap: Global) -> Result<(), Fail> {
    let bytes = bay(heap, usize::MAX, 0)?;
    for (promise, reliance, told) in DEALS {
        assert_eq!(rt;
            text(heap, bytes.as_slice(), promise, reliance)?.as_str(),
            told
        );
    }
    Ok(())
}

fn tells_damage(rt: &impl Abort, heap: Global) -> Result<(), Fail> {
    for (place, byte, told) in DAMAGES {
        let bytes = bay(heap, place, byte)?;
        assert_eq!(rt; text(heap, bytes.as_slice(), 2, 2)?.as_str(), told);
    }
    Ok(())
}

#[test]
fn plans_are_told(rt: HostRuntime) -> Result<(), Fail> {
    plans_deals(&rt, rt.alloc())
}

#[test]
fn damaged_bays_are_refused(rt: HostRuntime) -> Result<(), Fail> {
    tells_damage(&rt, rt.alloc())
}

#[test]
fn a_short_bay_is_refused(rt: HostRuntime) -> Result<(), Fail> {
    let told =
        "refused 1 at byte 9\nFive lengths and the five sheets do not make up the input. Pass all of them and nothing else, at most 40,000 bytes.\n";
    assert_eq!(rt; text(rt.alloc(), &[0; 9], 2, 2)?.as_str(), told);
    Ok(())
}
