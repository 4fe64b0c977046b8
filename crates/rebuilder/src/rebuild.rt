// The call that rebuilds the steps of a witness.
ghost use Rattle.std.specs.Prelude.{◌≡◌, take, ◌==◌};
ghost use Rattle.bounded.specs.Items.{items};
ghost use Rattle.checker.specs.Axioms.{Axioms};
ghost use Rattle.checker.specs.Verdict.{verdict};
ghost use Rattle.completeness.specs.Complete.{Rebuilt};
ghost use Rattle.completeness.specs.StepsFor.{bytes_of_steps, most_steps, steps_for};
ghost use Rattle.ordering.specs.Rules.{gam};
ghost use Rattle.ordering.specs.Tests.{gam_keeps};
ghost use Rattle.question.specs.Views.{litmus_of};
ghost use Rattle.completeness.specs.Rebuild.{rebuild_answer, rebuild_area};
ghost use Rattle.witness.specs.Views.{execution_of};

use super::rebuilding::Rebuilding;
use bounded::vector::Bounded;
use checker::check::check;
use events::evaluate::evaluate;
use fields::area::put;
use fields::refusal::Refusal;
use machine::step::Step;
use ordering::gam::Gam;
use question::question::Question;
use witness::witness::Witness;

/// The steps for a witness, found by running them; the first 256 where there are more.
fn steps_for(question: &Question, witness: &Witness) -> Bounded<Step, 256>
    ensures { items result ≡ take most_steps (steps_for (litmus_of question.now) (execution_of witness.now)) }
{
    let mut rebuilding = Rebuilding::start(question);
    rebuilding.fetch_all(evaluate(question, witness).as_slice());
    rebuilding.carry_out(witness.order());
    rebuilding.steps
}

/// The bytes of steps, four a step; the first 1024 where there are more.
fn bytes_of(steps: &[Step]) -> Bounded<u8, 1024>
    ensures { items result ≡ take 1024 (bytes_of_steps steps.now) }
{
    let mut bytes = Bounded::new(0);
    for step in steps {
        bytes.extend(&<[u8; 4]>::from(*step));
    }
    bytes
}

/// Whether a witness is accepted under GAM; every witness of which the axioms hold is, and its steps run to it.
#[tactic(auto, using(crate::proofs::Answered::accepted_by_number, crate::proofs::Answered::rebuilt))]
fn accepts(question: &Question, witness: &Witness) -> bool
    ensures value { result ≡ (verdict gam_keeps (litmus_of question.now) (execution_of witness.now) == 0) }
    ensures promise { Axioms gam (litmus_of question.now) (execution_of witness.now) → Rebuilt (litmus_of question.now) (execution_of witness.now) }
{
    check(&Gam, question, witness).is_ok()
}

/// The bytes of the steps for an accepted witness.
#[tactic(auto, using(crate::proofs::Answered::all_bytes, crate::proofs::Answered::rebuilt_if_accepted))]
fn bytes_for(question: &Question, witness: &Witness) -> Bounded<u8, 1024>
    requires { verdict gam_keeps (litmus_of question.now) (execution_of witness.now) ≡ 0 }
    ensures { items result ≡ bytes_of_steps (steps_for (litmus_of question.now) (execution_of witness.now)) }
{
    bytes_of(steps_for(question, witness).as_slice())
}

/// Writes the bytes of the steps that lead to a witness to the front of the area and answers how many they are.
/// Refused, and nothing written, where the witness is not accepted or the area has fewer bytes; 1024 are enough.
pub fn rebuild(question: &Question, witness: &Witness, area: &mut [u8]) -> Result<usize, Refusal>
    ensures value { result ≡ rebuild_answer (litmus_of question.now) (execution_of witness.now) area.old }
    ensures area { area.new ≡ rebuild_area (litmus_of question.now) (execution_of witness.now) area.old }
    ensures promise { Axioms gam (litmus_of question.now) (execution_of witness.now) → Rebuilt (litmus_of question.now) (execution_of witness.now) }
{
    if !accepts(question, witness) {
        return Err(Refusal::WitnessNotAccepted);
    }
    let bytes = bytes_for(question, witness);
    put(area, bytes.as_slice())
}
