ghost use Rattle.std.specs.Prelude.{IfOk, string_bytes};
ghost use Rattle.review.specs.Verdicts.{told};
ghost use Rattle.review.specs.Reviews.{Says, Reviews};

use crate::cases::Case;
use crate::refusals::Refusal;
use crate::sentences::Sentence;
use games::sheet_machine::SheetMachine;
use std::alloc::{AllocError, Global};

/// A verdict on a case, in words.
fn tell(heap: Global, case: &Case<'_>, verdict: Result<u16, Refusal>) -> Result<String, AllocError>
    ensures { IfOk result (λ text. Says (told verdict) (string_bytes text)) }
{
    // two lines, as inspection writes them of a fault of its own type
    match verdict {
        Ok(bound) => format!(in heap; "bound {bound}\n"),
        Err(refusal) => {
            let why = Sentence { case, refusal }.to_string(heap)?;
            format!(in heap; "{refusal}\n{why}\n")
        }
    }
}

/// The bound of a case's record, or what is refused first and why.
pub fn review(heap: Global, case: &Case<'_>) -> Result<String, AllocError>
    ensures { IfOk result (λ text. Reviews case.now (string_bytes text)) }
{
    let machine = SheetMachine::new(heap)?;
    tell(heap, case, case.judge(machine))
}
