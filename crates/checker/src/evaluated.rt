// A witness with the events of its paths.
ghost use Rattle.bounded.specs.Items.{items};
ghost use Rattle.question.specs.Views.{litmus_of};
ghost use Rattle.witness.specs.Views.{execution_of};
ghost use Rattle.checker.specs.Rows.{Evaluation};

use bounded::vector::Bounded;
use events::path::PathEvents;
use question::question::Question;
use witness::witness::Witness;

pub mod methods;

/// A question and a witness of it, with the events and the source records of each path.
#[derive(Drop)]
pub struct Evaluated<'q, 'w> {
    pub question: &'q Question,
    pub witness: &'w Witness,
    pub paths: Bounded<PathEvents, 4>,
    ghost evaluation: { ∥ Evaluation (litmus_of question.now) (execution_of witness.now) (items paths) ∥₁ },
}
