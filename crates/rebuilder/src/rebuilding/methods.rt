// Starting a rebuild, and its steps.
ghost use Rattle.std.specs.Prelude.{◌≡◌, [], ◌∷◌};
ghost use Rattle.rules.specs.Rules.{rule_number};
ghost use Rattle.machine.specs.Fires.{step};
ghost use Rattle.question.specs.Views.{litmus_of};
ghost use Rattle.rebuilder.specs.Progress.{TakesFirst, begun, runs};
ghost use Rattle.rebuilder.specs.Views.{progress_of};

use super::Rebuilding;
use bounded::vector::Bounded;
use machine::open::OpenRun;
use machine::step::Step;
use memory::table::Table;
use question::question::Question;
use rules::rule::Rule;

/// The step of the entry at a position of a processor by a rule.
pub(super) fn entry_step(rule: Rule, processor: u8, position: u8) -> Step
    ensures { result ≡ step (rule_number rule) processor position 0 }
{
    Step {
        rule: rule.into(),
        processor,
        position,
        guess: 0,
    }
}

impl<'q> Rebuilding<'q> {
    /// A rebuild before its first step.
    #[tactic(auto, using(crate::proofs::GoesOn::same_progress), unfolding(crate::specs::Views::progress_of, crate::specs::Progress::begun))]
    pub fn start(question: &'q Question) -> Rebuilding<'q>
        ensures { progress_of result ≡ begun (litmus_of question.now) }
    {
        Rebuilding {
            run: OpenRun::start(question, Table::new()),
            processors: question.processors() as u8,
            steps: Bounded::new(Step::from([0; 4])),
        }
    }

    /// Takes a step, accepted or refused.
    pub(super) fn take(&mut self, step: Step)
        ensures { progress_of self.new ≡ runs (progress_of self.old) (step ∷ []) }
    {
        let _ = self.run.step(step);
        self.steps.push(step);
    }

    /// Takes a step if it is accepted, and answers whether it is.
    pub(super) fn take_if_accepted(&mut self, step: Step) -> bool
        ensures { TakesFirst (progress_of self.old) (step ∷ []) result (progress_of self.new) }
    {
        let accepted = self.run.step(step).is_ok();
        if accepted {
            self.steps.push(step);
        }
        accepted
    }
}
