// The checker: the five tests in their order.
ghost use Rattle.std.specs.Prelude.{◌≡◌};
ghost use Rattle.question.specs.Views.{litmus_of};
ghost use Rattle.witness.specs.Views.{execution_of};
ghost use Rattle.checker.specs.Verdict.{tests, first_failing, verdict};
ghost use Rattle.checker.specs.Views.{asked, stated, verdict_number};

use super::axiom::Axiom;
use super::evaluated::Evaluated;
use ordering::rule::OrderingRule;
use question::question::Question;
use witness::witness::Witness;

/// The first axiom that an evaluated witness fails, by its test.
fn judge<R: OrderingRule>(rule: &R, evaluated: &Evaluated<'_, '_>) -> Result<(), Axiom>
    ensures { verdict_number result ≡ first_failing (tests (R.OrderingRule.keeps rule.now) (asked evaluated.now) (stated evaluated.now)) }
{
    if !evaluated.path_test() {
        return Err(Axiom::Path);
    }
    if !evaluated.order_test() {
        return Err(Axiom::Order);
    }
    if !evaluated.source_test() {
        return Err(Axiom::Source);
    }
    if !evaluated.inst_order_test(rule) {
        return Err(Axiom::InstOrder);
    }
    if !evaluated.load_value_test() {
        return Err(Axiom::LoadValue);
    }
    Ok(())
}

/// The verdict on a witness of a question under an ordering rule: accepted, or the first axiom that fails.
pub fn check<R: OrderingRule>(rule: &R, question: &Question, witness: &Witness) -> Result<(), Axiom>
    ensures { verdict_number result ≡ verdict (R.OrderingRule.keeps rule.now) (litmus_of question.now) (execution_of witness.now) }
{
    let evaluated = Evaluated::new(question, witness);
    judge(rule, &evaluated)
}
