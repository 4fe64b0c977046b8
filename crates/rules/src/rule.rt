// The rules by their numbers.
ghost use Rattle.std.specs.Prelude.{◌≡◌};
ghost use Rattle.fields.specs.declared.refusal.Refusal.TheVariants.{RuleOrProcessorAbsent};
ghost use Rattle.std.specs.Option.{ok_or};
ghost use Rattle.rules.specs.Rules.{rule_of, rule_number};

use fields::refusal::Refusal;

/// A rule of the machine.
#[derive(Clone, Copy, PartialEq, Eq, Debug)]
pub enum Rule {
    Fetch = 1,
    Arithmetic = 2,
    Branch = 3,
    Fence = 4,
    Load = 5,
    StoreData = 6,
    Store = 7,
    Address = 8,
}

impl TryFrom<u8> for Rule {
    type Error = Refusal;

    // The rule with this number; refused where it is not 1 to 8.
    ghost try_from_gives = { λ n r. r ≡ ok_or (rule_of n) RuleOrProcessorAbsent };

    fn try_from(number: u8) -> Result<Rule, Refusal> {
        match number {
            1 => Ok(Rule::Fetch),
            2 => Ok(Rule::Arithmetic),
            3 => Ok(Rule::Branch),
            4 => Ok(Rule::Fence),
            5 => Ok(Rule::Load),
            6 => Ok(Rule::StoreData),
            7 => Ok(Rule::Store),
            8 => Ok(Rule::Address),
            _ => Err(Refusal::RuleOrProcessorAbsent),
        }
    }
}

impl From<Rule> for u8 {
    // The number of the rule.
    ghost from_gives = { λ r n. n ≡ rule_number r };

    fn from(rule: Rule) -> u8 {
        rule as u8
    }
}
