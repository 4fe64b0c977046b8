// The call that marks an answer.
ghost use Rattle.std.specs.Prelude.{◌≡◌, map};
ghost use Rattle.runs.specs.StepBytes.{steps_of};
ghost use Rattle.question.specs.Views.{litmus_of};
ghost use Rattle.marking.specs.Earned.{earned, run_of, by_steps, by_witness};
ghost use Rattle.marking.specs.Marks.{MarksAgree};
ghost use Rattle.marking.specs.Promise.{StepsAndWitnessesAgree};
ghost use Rattle.marking.specs.Views.{earned_of, given_of, step_stated};
ghost use Rattle.witness.specs.Read.{witness_of};

use super::answer::Answer;
use super::fault::Fault;
use checker::check::check;
use machine::open::OpenRun;
use machine::step::Step;
use memory::memory::Memory;
use ordering::gam::Gam;
use question::question::Question;
use witness::witness::Witness;

/// Whether steps finish a run over a memory.
fn finishes<M: Memory + Drop>(question: &Question, memory: M, steps: &[[u8; 4]]) -> bool
    ensures { result ≡ (run_of (litmus_of question.now) (map step_stated steps.now)).finished }
{
    let mut run = OpenRun::start(question, memory);
    for step in steps {
        let _ = run.step(Step::from(*step));
    }
    run.close().is_finished()
}

/// What the bytes of a witness earn.
fn mark_witness(question: &Question, bytes: &[u8]) -> Result<(), Fault>
    ensures { earned_of result ≡ by_witness (litmus_of question.now) (witness_of bytes.now) }
{
    let mut witness = Witness::new();
    witness.read(bytes)?;
    check(&Gam, question, &witness)?;
    Ok(())
}

/// What the bytes of a step list earn. A finished run is accepted: that is the promise.
#[tactic(auto, using(runs::proofs::Steps::steps_cut, crate::proofs::Chunks::stated_by_chunks, crate::proofs::Marked::steps_accepted, crate::proofs::Marked::steps_unfinished, reachable::proofs::Questions::questions_are_checked))]
fn mark_steps<M: Memory + Drop>(question: &Question, memory: M, bytes: &[u8]) -> Result<(), Fault>
    ensures { earned_of result ≡ by_steps (litmus_of question.now) (steps_of bytes.now) }
{
    let (steps, []) = bytes.as_chunks::<4>() else {
        return Err(Fault::Unreadable);
    };
    if !finishes(question, memory, steps) {
        return Err(Fault::Unfinished);
    }
    Ok(())
}

/// Marks an answer to a question over a memory.
#[tactic(auto, using(crate::proofs::Marked::marks_agree, crate::proofs::Promised::steps_and_witnesses_agree, reachable::proofs::Questions::questions_are_checked))]
pub fn mark<M: Memory + Drop>(
    question: &Question,
    memory: M,
    answer: Answer<'_>,
) -> Result<(), Fault>
    ensures value { earned_of result ≡ earned (litmus_of question.now) (given_of answer.entry) }
    ensures promise { StepsAndWitnessesAgree (litmus_of question.now) }
    ensures marks { MarksAgree (litmus_of question.now) }
{
    match answer {
        Answer::Steps(bytes) => mark_steps(question, memory, bytes),
        Answer::Witness(bytes) => mark_witness(question, bytes),
    }
}
