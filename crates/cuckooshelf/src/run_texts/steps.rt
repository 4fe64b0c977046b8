// Steps, as text.
use hexadecimal::encode::HexText;
use machine::step::Step;
use rules::rule::Rule;
use std::fmt;

/// The rule with this number by its name, or its number where there is none.
#[derive(Clone, Copy)]
struct RuleText(u8);

impl fmt::Display for RuleText {
    fn fmt<W: fmt::Write>(&self, f: &mut fmt::Formatter<W>) -> fmt::Result {
        let number = self.0;
        let Ok(rule) = Rule::try_from(number) else {
            return write!(f, "rule {number}");
        };
        f.write_str(match rule {
            Rule::Fetch => "fetch",
            Rule::Arithmetic => "arithmetic",
            Rule::Branch => "branch",
            Rule::Fence => "fence",
            Rule::Load => "load",
            Rule::StoreData => "store data",
            Rule::Store => "store",
            Rule::Address => "address",
        })
    }
}

/// A step.
#[derive(Clone, Copy)]
pub struct StepText(pub Step);

impl fmt::Display for StepText {
    fn fmt<W: fmt::Write>(&self, f: &mut fmt::Formatter<W>) -> fmt::Result {
        let Step {
            rule,
            processor,
            position,
            guess,
        } = self.0;
        let rule = RuleText(rule);
        write!(
            f,
            "{rule}, processor {processor}, position {position}, guess {guess}"
        )
    }
}

/// The steps that bytes state, a line each, and the bytes.
#[derive(Clone, Copy)]
pub struct StepLines<'a>(pub &'a [u8]);

impl fmt::Display for StepLines<'_> {
    fn fmt<W: fmt::Write>(&self, f: &mut fmt::Formatter<W>) -> fmt::Result {
        let (steps, _) = self.0.as_chunks::<4>();
        for (index, bytes) in steps.iter().enumerate() {
            writeln!(f, "step {index}: {}", StepText(Step::from(*bytes)))?;
        }
        write!(f, "their bytes: {}", HexText(self.0))
    }
}
