// The answer to a case that is refused.
ghost use Rattle.std.specs.Prelude.{◌≡◌, IfOk, string_bytes};
ghost use Rattle.cuckooshelf.specs.Answers.{refused_answer};

use fields::refusal::Refusal;
use std::alloc::{AllocError, Global};

/// That it is refused, with the number of the refusal.
pub fn refused(heap: Global, refusal: Refusal) -> Result<String, AllocError>
    ensures { IfOk result (λ s. string_bytes s ≡ refused_answer refusal) }
{
    format!(in heap; "refused {}", u8::from(refusal))
}
