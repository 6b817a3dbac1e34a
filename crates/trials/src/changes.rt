use reading::faults::ReadFault;
use std::alloc::{AllocError, Global};

/// Two places with their new bytes, and the fault that they bring; a place past the end changes nothing.
pub(crate) type Case = ((usize, u8), (usize, u8), (u8, u16));

/// No new byte.
pub(crate) const NONE: (usize, u8) = (usize::MAX, 0);

/// Puts a new byte in its place.
pub(crate) fn with(bytes: &mut [u8], change: (usize, u8)) {
    if change.0 < bytes.len() {
        bytes[change.0] = change.1;
    }
}

/// Number and place of a fault; zeros where there is none.
pub(crate) fn told(fault: Option<ReadFault>) -> (u8, u16) {
    match fault {
        Some(f) => (f.number(), f.place()),
        None => (0, 0),
    }
}

/// So many zeros behind some bytes.
pub(crate) fn long(heap: Global, front: &[u8], zeros: usize) -> Result<Vec<u8>, AllocError> {
    let mut bytes = front.to_vec(heap)?;
    for _ in 0..zeros {
        bytes.push(0)?;
    }
    Ok(bytes)
}
