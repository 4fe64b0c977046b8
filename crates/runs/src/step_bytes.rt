// Lists of steps from bytes.
ghost use Rattle.std.specs.Prelude.{◌≡◌, IfOk, vec_items};
ghost use Rattle.std.specs.Option.{option_map};
ghost use Rattle.runs.specs.StepBytes.{steps_of};

use machine::step::Step;
use std::alloc::{AllocError, Global};

/// The steps that bytes state, four bytes a step; nothing where a part of a step is left over.
pub fn steps_of(heap: Global, bytes: &[u8]) -> Result<Option<Vec<Step>>, AllocError>
    ensures { IfOk result (λ o. option_map vec_items o ≡ steps_of bytes.now) }
{
    let (chunks, []) = bytes.as_chunks::<4>() else {
        return Ok(None);
    };
    let mut steps = Vec::new(heap);
    for chunk in chunks {
        steps.push(Step::from(*chunk))?;
    }
    Ok(Some(steps))
}
