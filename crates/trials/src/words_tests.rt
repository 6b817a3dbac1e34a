use crate::planning_tests::bay;
use crate::recordings_tests::recording;
use negotiation::negotiator::Negotiator;
use negotiation::words::Explained;
use recordings::recording::Recording;
use recordings::words::DamageSentence;
use std::alloc::Global;
use std::test::Fail;

/// What `bay` says about an input; nothing where both sides settle.
fn explained(heap: Global, bytes: &[u8]) -> Result<String, Fail> {
    match Negotiator::new(heap)?.negotiate(bytes) {
        Ok(_) => Ok(String::new(heap)),
        Err(refusal) => Ok(Explained(refusal).to_string(heap)?),
    }
}

/// A place of the bay of toggles, the byte put there, and what is said.
const BAYS: [(usize, u8, &str); 4] = [
    (141, 0, ""),
    (
        0,
        41,
        "refused 3 at byte 141: Five lengths and the five sheets do not make up the input. Pass all of them and nothing else, at most 40,000 bytes.",
    ),
    (
        72,
        0,
        "refused 2 at byte 0: The machine sheet of side 1 is refused: a field is out of its range. Put a value in range there.",
    ),
    (
        135,
        1,
        "refused 3 at byte 7: The phase table is refused: its length is not the one that its fields ask for. Pass the whole of it with nothing behind it, or correct its sizes.",
    ),
];

#[test]
fn refused_bays_are_explained(rt: HostRuntime) -> Result<(), Fail> {
    let heap = rt.alloc();
    for (place, byte, said) in BAYS {
        let bytes = bay(heap, place, byte)?;
        assert_eq!(rt; explained(heap, bytes.as_slice())?.as_str(), said);
    }
    Ok(())
}

/// What `replay_log` says behind the number and the place of a damage; nothing where there is none.
fn said_of_damage(heap: Global, bytes: &[u8]) -> Result<String, Fail> {
    let damage = match Recording::read(heap, bytes)? {
        Ok(recording) => recording.calls.damage,
        Err(damage) => Some(damage),
    };
    match damage {
        None => Ok(String::new(heap)),
        Some(damage) => Ok(DamageSentence(damage).to_string(heap)?),
    }
}

/// A place of a recorded bay, the byte put there, calls, and what is said.
const DAMAGED: [(usize, u8, &[u8], &str); 5] = [
    (141, 0, &[3, 1], ""),
    (
        141,
        0,
        &[3],
        "The recording ends inside its bay or a call. Pass the whole of it.",
    ),
    (
        141,
        0,
        &[4],
        "No call begins with this byte, or there is no such question. Calls begin with 1, 2 or 3, and questions are 0 to 4.",
    ),
    (
        52,
        9,
        &[3, 1],
        "The rule sheet of side 0 is refused: a field is out of its range. Put a value in range there.",
    ),
    (
        140,
        1,
        &[3, 1],
        "The phase table is refused: an entry is out of its range. Put a value in range there.",
    ),
];

#[test]
fn damage_is_explained(rt: HostRuntime) -> Result<(), Fail> {
    let heap = rt.alloc();
    for (place, byte, calls, said) in DAMAGED {
        let bytes = recording(heap, place, byte, calls)?;
        assert_eq!(rt; said_of_damage(heap, bytes.as_slice())?.as_str(), said);
    }
    Ok(())
}
