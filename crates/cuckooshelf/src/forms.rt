// The forms of cases, one a module.
ghost use Rattle.std.specs.Prelude.{◌≡◌, ℕ, List, IfOk, IsErrOf, string_bytes, vec_items, Option, None, Some};
ghost use Rattle.cuckooshelf.specs.declared.forms.Unanswered.TheVariants.{Malformed, Memory};
ghost use Rattle.hexadecimal.specs.Hex.{hex_bytes};

use hexadecimal::decode::decode;
use std::alloc::{AllocError, Global};

pub mod check;
pub mod pair;
pub mod question_form;
pub mod rebuild;
pub mod refused;
pub mod run;

/// Why operands have no answer.
#[derive(Debug, Drop)]
pub enum Unanswered {
    /// They are not operands of the form.
    Malformed,
    /// No memory was left to make the answer.
    Memory(AllocError),
}

impl From<AllocError> for Unanswered {
    ghost from_gives = { λ e u. u ≡ Memory e };

    fn from(e: AllocError) -> Unanswered {
        Unanswered::Memory(e)
    }
}

/// A form of case: operands, to which there is an answer in words.
pub trait Form {
    /// When an answer to operands is right; a form that does not state this says nothing.
    ghost right: { List ℕ → Option (List ℕ) → Type 0 } = { λ _ _. Unit {0} };

    /// The answer to the operands.
    fn answer(heap: Global, operands: &str) -> Result<String, Unanswered>
        ensures answered { IfOk result (λ s. right operands.now (Some (string_bytes s))) }
        ensures malformed { IsErrOf result Malformed → right operands.now None };
}

/// The bytes that an operand states in hexadecimal.
pub fn decoded(heap: Global, operand: &str) -> Result<Vec<u8>, Unanswered>
    ensures stated { IfOk result (λ w. hex_bytes operand.now ≡ Some (vec_items w)) }
    ensures malformed { IsErrOf result Malformed → hex_bytes operand.now ≡ None }
{
    decode(heap, operand.as_bytes())?.ok_or(Unanswered::Malformed)
}
