use crate::planning_tests::bay;
use recordings::replaying::text;
use std::alloc::Global;
use std::test::Fail;

/// A recording over the bay of two watched toggles, with one byte of the bay changed. The calls begin at place 143.
pub(crate) fn recording(
    heap: Global,
    place: usize,
    byte: u8,
    calls: &[u8],
) -> Result<Vec<u8>, Fail> {
    let mut bytes = Vec::new(heap);
    bytes.extend_from_slice(&[141, 0])?;
    bytes.extend_from_slice(bay(heap, place, byte)?.as_slice())?;
    bytes.extend_from_slice(calls)?;
    Ok(bytes)
}

/// Calls over the bay as it is, and the lines.
const CALLS: [(&[u8], &str); 11] = [
    (&[], ""),
    (&[3, 1, 3, 4], "phase 0\nranks 65535 65535\n"),
    (&[2, 3, 0, 3, 0], "report refused 32 side 2\n"),
    // no such call, no such question
    (&[0, 1], "refused 2 byte 143\n"),
    (&[4], "refused 2 byte 143\n"),
    (&[3, 0, 3, 5], "states 0 0\nrefused 2 byte 146\n"),
    // the input ends inside a question, a report, an offer's length, its table, its records
    (&[3], "refused 1 byte 144\n"),
    (&[3, 2, 2, 1, 0, 1], "waits 0 0\nrefused 1 byte 149\n"),
    (&[1, 7], "refused 1 byte 145\n"),
    (&[1, 4, 0, 1, 1, 1], "refused 1 byte 149\n"),
    (
        &[
            1, 0, 0, 2, 0, 0, 0, 2, 0, 0, 0, 2, 0, 0, 0, 2, 0, 0, 0, 0, 0, 1, 0,
        ],
        "refused 1 byte 166\n",
    ),
];

#[test]
fn calls_are_told(rt: HostRuntime) -> Result<(), Fail> {
    let heap = rt.alloc();
    for (calls, lines) in CALLS {
        let bytes = recording(heap, 141, 0, calls)?;
        assert_eq!(rt; text(heap, bytes.as_slice())?.as_str(), lines);
    }
    Ok(())
}

/// A place of the bay, the byte put there, and the line.
const BAYS: [(usize, u8, &str); 6] = [
    // the lengths; the sheets in turn; the phase table
    (0, 41, "refused 3 byte 143\n"),
    (10, 0, "refused 2 byte 12\n"),
    (52, 9, "refused 2 byte 54\n"),
    (72, 0, "refused 2 byte 74\n"),
    (114, 9, "refused 2 byte 116\n"),
    (140, 1, "refused 4 byte 142\n"),
];

#[test]
fn damaged_bays_are_told(rt: HostRuntime) -> Result<(), Fail> {
    let heap = rt.alloc();
    for (place, byte, line) in BAYS {
        let bytes = recording(heap, place, byte, &[3, 0, 9])?;
        assert_eq!(rt; text(heap, bytes.as_slice())?.as_str(), line);
    }
    Ok(())
}

/// Inputs that end inside the length or the bay; and an empty bay.
const CUT: [(&[u8], &str); 4] = [
    (&[], "refused 1 byte 0\n"),
    (&[5], "refused 1 byte 1\n"),
    (&[3, 0, 1, 2], "refused 1 byte 4\n"),
    (&[0, 0, 3, 0], "refused 1 byte 2\n"),
];

#[test]
fn cut_inputs_are_told(rt: HostRuntime) -> Result<(), Fail> {
    for (bytes, line) in CUT {
        assert_eq!(rt; text(rt.alloc(), bytes)?.as_str(), line);
    }
    Ok(())
}
