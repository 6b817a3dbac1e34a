ghost use Rattle.std.specs.Prelude.{◌≡◌, IfOk, IfSome, take, vec_items};

use anyhow::{Context, Result};
use std::alloc::Global;
use std::fs;
use std::io::{self, Read};
use std::rt::Files;

/// So much of a sheet or a record is read: none is as long, and no place is above it.
pub const SHEET_LIMIT: u64 = 65_535;

/// So much of a bay is read: it has at most 40,000 bytes, and one more tells that there are too many.
pub const BAY_LIMIT: u64 = 40_001;

/// What comes, up to a limit. A reader whose bytes are not known, as a file or standard input, can give any.
pub fn read_input<R: Read + Drop>(heap: Global, from: R, most: u64) -> io::Result<Vec<u8>>
    ensures { IfOk result (λ bytes. IfSome (R.remaining from) (λ xs. vec_items bytes ≡ take most xs)) }
{
    let mut bytes = Vec::new(heap);
    from.take(most).read_to_end(&mut bytes)?;
    Ok(bytes)
}

/// What a sheet's or a record's file has; no clause can say what that is. An error names the file.
pub fn read_sheet<F: Files>(files: &F, heap: Global, path: &str) -> Result<Vec<u8>> {
    let file = fs::open(files, path).context(format_args!("{path} cannot be opened"))?;
    read_input(heap, file, SHEET_LIMIT).context(format_args!("{path} cannot be read"))
}
