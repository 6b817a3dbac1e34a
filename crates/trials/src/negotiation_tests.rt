use crate::planning_tests::bay;
use negotiation::line::Line;
use negotiation::negotiator::Negotiator;
use std::alloc::Global;
use std::test::Fail;

/// The line for an input.
fn told(heap: Global, bytes: &[u8]) -> Result<Line, Fail> {
    Ok(Negotiator::new(heap)?.answer(bytes).line)
}

#[test]
fn the_toggles_make_a_deal(rt: HostRuntime) -> Result<(), Fail> {
    let heap = rt.alloc();
    let bytes = bay(heap, 141, 0)?;
    let text = told(heap, bytes.as_slice())?;
    assert_eq!(rt; text.as_str(), "deal 2 2 tries 5 bounds 2 2\n");
    Ok(())
}

/// A place of the bay of toggles, the byte put there, and the line.
const DAMAGED: [(usize, u8, &str); 9] = [
    // a length
    (0, 41, "refused 3\n"),
    (1, 255, "refused 3\n"),
    // the first machine sheet has a state too many; a move's target is out of range
    (10, 3, "refused 3\n"),
    (36, 2, "refused 4\n"),
    // the first rule sheet has no states
    (52, 0, "refused 2\n"),
    // the second machine sheet and its rule sheet
    (72, 0, "refused 2\n"),
    (114, 9, "refused 2\n"),
    // the phase table leads to a phase that there is not; it has not the machines' signals
    (137, 1, "refused 4\n"),
    (135, 1, "refused 3\n"),
];

#[test]
fn damaged_bays_are_refused(rt: HostRuntime) -> Result<(), Fail> {
    let heap = rt.alloc();
    for (place, byte, text) in DAMAGED {
        let bytes = bay(heap, place, byte)?;
        assert_eq!(rt; told(heap, bytes.as_slice())?.as_str(), text);
    }
    Ok(())
}

/// The line for the first so many bytes of the bay of toggles.
fn cut(heap: Global, size: usize) -> Result<Line, Fail> {
    let mut bytes = bay(heap, 141, 0)?;
    bytes.truncate(size);
    told(heap, bytes.as_slice())
}

#[test]
fn short_inputs_are_refused(rt: HostRuntime) -> Result<(), Fail> {
    let heap = rt.alloc();
    assert_eq!(rt; cut(heap, 0)?.as_str(), "refused 1\n");
    assert_eq!(rt; cut(heap, 9)?.as_str(), "refused 1\n");
    assert_eq!(rt; cut(heap, 140)?.as_str(), "refused 3\n");
    // five empty sheets: the first is too short
    assert_eq!(rt; told(heap, &[0; 10])?.as_str(), "refused 1\n");
    Ok(())
}

/// On a table of one signal each way the toggles do not meet.
#[test]
fn toggles_on_another_table_are_refused(rt: HostRuntime) -> Result<(), Fail> {
    let heap = rt.alloc();
    let mut bytes = bay(heap, 8, 4)?;
    bytes.truncate(134);
    // one phase, one signal each way, and its one entry
    bytes.extend_from_slice(&[1, 1, 1, 0])?;
    assert_eq!(rt; told(heap, bytes.as_slice())?.as_str(), "refused 10\n");
    Ok(())
}
