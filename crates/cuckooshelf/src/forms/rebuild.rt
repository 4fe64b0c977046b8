// Cases of the form `rebuild Q WITNESS => steps STEPS | refused N`.
use super::pair::pair;
use super::refused::refused;
use super::{Form, Unanswered};
use hexadecimal::encode::HexText;
use rebuilder::rebuild::rebuild;
use std::alloc::Global;

/// The steps for a witness.
pub enum RebuildForm {}

impl Form for RebuildForm {
    fn answer(heap: Global, operands: &str) -> Result<String, Unanswered> {
        let (question, witness) = match pair(heap, operands)? {
            Ok(pair) => pair,
            Err(pair) => return Ok(refused(heap, pair.refusal())?),
        };
        let mut area = [0; 1024];
        let answer = match rebuild(&question, &witness, &mut area) {
            Ok(length) => format!(in heap; "steps {}", HexText(&area[..length]))?,
            Err(refusal) => refused(heap, refusal)?,
        };
        Ok(answer)
    }
}
