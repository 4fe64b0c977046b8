// Questions and witnesses from bytes.
ghost use Rattle.std.specs.Prelude.{◌≡◌, ◌⊎◌, MatchResult, Ok, Err};
ghost use Rattle.cuckooshelf.specs.Reading.{refusal_in};
ghost use Rattle.question.specs.Read.{question_of};
ghost use Rattle.question.specs.Views.{litmus_of};
ghost use Rattle.witness.specs.Read.{witness_of};
ghost use Rattle.witness.specs.Views.{execution_of};

use fields::refusal::Refusal;
use listing::refusal::RefusalText;
use question::question::Question;
use thiserror::Error;
use witness::witness::Witness;

/// What is refused, and why: one of the things that a command reads.
#[derive(Debug, Drop, Error)]
pub enum Refused {
    #[error("question {}", RefusalText(*.0))]
    Question(Refusal),
    #[error("witness {}", RefusalText(*.0))]
    Witness(Refusal),
    /// The question of a run, which is told without its name.
    #[error("{}", RefusalText(*.0))]
    Run(Refusal),
}

impl Refused {
    /// Why it is refused.
    pub fn refusal(self) -> Refusal
        ensures { result ≡ refusal_in self }
    {
        match self {
            Refused::Question(refusal) | Refused::Witness(refusal) | Refused::Run(refusal) =>
                refusal,
        }
    }
}

/// The question that bytes are.
pub fn read_question(bytes: &[u8]) -> Result<Question, Refused>
    ensures { MatchResult result (λ q. question_of bytes.now ≡ Ok (litmus_of q)) (λ r. question_of bytes.now ≡ Err (refusal_in r)) }
{
    let mut question = Question::new();
    question.read(bytes).map_err(Refused::Question)?;
    Ok(question)
}

/// The witness that bytes are.
fn read_witness(bytes: &[u8]) -> Result<Witness, Refused>
    ensures { MatchResult result (λ w. witness_of bytes.now ≡ Ok (execution_of w)) (λ r. witness_of bytes.now ≡ Err (refusal_in r)) }
{
    let mut witness = Witness::new();
    witness.read(bytes).map_err(Refused::Witness)?;
    Ok(witness)
}

/// The question and the witness that bytes are; the first of them that is refused is told.
pub fn read_pair(question: &[u8], witness: &[u8]) -> Result<(Question, Witness), Refused>
    ensures { MatchResult result (λ p. (question_of question.now ≡ Ok (litmus_of p.0)) × (witness_of witness.now ≡ Ok (execution_of p.1))) (λ r. (question_of question.now ≡ Err (refusal_in r)) ⊎ (witness_of witness.now ≡ Err (refusal_in r))) }
{
    Ok((read_question(question)?, read_witness(witness)?))
}
