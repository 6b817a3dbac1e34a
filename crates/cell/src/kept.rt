ghost use Rattle.std.specs.Prelude.{◌≡◌, ◌≤◌, [], length, IfOk, vec_items, vec_capacity};

use reading::records::LONGEST;
use std::alloc::{AllocError, Global};

/// A cell's own copy of a record.
#[derive(Drop)]
pub(crate) struct Kept {
    // room for the longest record, so that no later call takes memory
    bytes: Vec<u8>,
    ghost room: { 6148 ≤ vec_capacity bytes },
}

impl Kept {
    /// Room for the longest record.
    pub(crate) fn new(heap: Global) -> Result<Kept, AllocError>
        ensures { IfOk result (λ kept. vec_items kept.bytes ≡ []) }
    {
        Ok(Kept {
            bytes: Vec::with_capacity(heap, LONGEST)?,
        })
    }

    /// The bytes.
    pub(crate) fn bytes(&self) -> &[u8]
        ensures { result.now ≡ vec_items self.now.bytes }
    {
        self.bytes.as_slice()
    }

    /// Copies a record.
    pub(crate) fn keep(&mut self, source: &[u8])
        requires { length source.now ≤ 6148 }
        ensures { vec_items self.new.bytes ≡ source.now }
    {
        self.bytes.clear();
        // there is room for the longest
        self.bytes.extend_from_slice(source).unwrap();
    }
}
