// The listing of a check.
use super::accesses::AccessLines;
use super::reason_search::reason;
use checker::axiom::verdict_number;
use checker::check::check;
use checker::evaluated::Evaluated;
use ordering::rule::OrderingRule;
use question::question::Question;
use std::fmt;
use witness::witness::Witness;

/// The verdict on a witness under a rule with its reason, and the accesses in memory order.
#[derive(Drop)]
pub struct CheckListing<'a, R: OrderingRule> {
    pub rule: &'a R,
    pub question: &'a Question,
    pub witness: &'a Witness,
}

impl<R: OrderingRule> fmt::Display for CheckListing<'_, R> {
    fn fmt<W: fmt::Write>(&self, f: &mut fmt::Formatter<W>) -> fmt::Result {
        let verdict = check(self.rule, self.question, self.witness);
        let evaluated = Evaluated::new(self.question, self.witness);
        write!(f, "verdict {}: ", verdict_number(verdict))?;
        match verdict.map_err(|axiom| reason(self.rule, &evaluated, axiom)) {
            Ok(()) => f.write_str("accepted")?,
            Err(Some(reason)) => write!(f, "{reason}")?,
            Err(None) => f.write_str("not accepted")?,
        }
        let accesses = AccessLines {
            order: self.witness.order(),
            rows: evaluated.paths.as_slice(),
        };
        write!(f, "\n{accesses}")
    }
}
