ghost use Rattle.std.specs.Prelude.{IfOk, string_bytes};
ghost use Rattle.inspection.specs.Refusals.{Titled};

use std::alloc::{AllocError, Global};
use std::fmt;

/// What a sheet, a product or a lift means, under its title.
pub(crate) fn titled<S: fmt::Display + Drop>(
    heap: Global,
    title: &str,
    words: S,
) -> Result<String, AllocError>
    ensures { IfOk result (λ text. Titled title.now (string_bytes text)) }
{
    let mut text = words.to_string(heap)?;
    // in front of the words, which would be held twice if they were copied behind it
    text.insert_str(0, "\n")?;
    text.insert_str(0, title)?;
    Ok(text)
}
