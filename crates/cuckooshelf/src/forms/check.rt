// Cases of the form `check gam|sc Q WITNESS => verdict N | refused N`.
use super::super::models::Model;
use super::pair::pair;
use super::refused::refused;
use super::{Form, Unanswered};
use checker::axiom::verdict_number;
use checker::check::check;
use ordering::gam::Gam;
use ordering::sequential::Sequential;
use std::alloc::Global;

/// The verdict on a witness.
pub enum CheckForm {}

/// The answer under a model.
fn verdict(heap: Global, model: Model, operands: &str) -> Result<String, Unanswered> {
    let (question, witness) = match pair(heap, operands)? {
        Ok(pair) => pair,
        Err(pair) => return Ok(refused(heap, pair.refusal())?),
    };
    let verdict = match model {
        Model::Gam => check(&Gam, &question, &witness),
        Model::Sc => check(&Sequential, &question, &witness),
    };
    Ok(format!(in heap; "verdict {}", verdict_number(verdict))?)
}

impl Form for CheckForm {
    fn answer(heap: Global, operands: &str) -> Result<String, Unanswered> {
        let (word, rest) = operands.split_once(' ').ok_or(Unanswered::Malformed)?;
        let model = word.parse::<Model>().map_err(|_| Unanswered::Malformed)?;
        verdict(heap, model, rest)
    }
}
