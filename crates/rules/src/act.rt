// A step of rules 2 to 8, with its tests in order; and a fetch.
ghost use Rattle.std.specs.Prelude.{◌≡◌};
ghost use Rattle.question.specs.Litmus.{code_at};
ghost use Rattle.question.specs.Views.{litmus_of};
ghost use Rattle.rules.specs.Act.{act, fetch};
ghost use Rattle.rules.specs.Rules.{suits, made};

use super::change::Action;
use super::entry::Entry;
use super::rule::Rule;
use super::standing::Standing;
use fields::refusal::Refusal;
use instructions::instruction::Instruction;
use question::question::Question;

/// Whether the rule is for the instruction.
fn suits(rule: Rule, instruction: Instruction) -> bool
    ensures { result ≡ suits rule instruction }
{
    match rule {
        Rule::Fetch => false,
        Rule::Arithmetic => instruction.computes(),
        Rule::Branch => instruction.branches(),
        Rule::Fence => instruction.fences(),
        Rule::Load => instruction.loads(),
        Rule::StoreData | Rule::Store => instruction.stores(),
        Rule::Address => instruction.accesses(),
    }
}

/// Whether the rule's step was made already.
fn made(rule: Rule, entry: Entry) -> bool
    ensures { result ≡ made rule entry }
{
    match rule {
        Rule::StoreData => entry.datum.is_some(),
        Rule::Address => entry.address.is_some(),
        _ => entry.done,
    }
}

/// A step of rules 2 to 8 on the buffer of a processor: what it asks of the run, or the first cause that refuses it.
pub fn act(
    rule: Rule,
    entries: &[Entry],
    processor: u8,
    position: u8,
    guess: u8,
) -> Result<Action, Refusal>
    ensures { result ≡ act rule entries.now processor position guess }
{
    if position as usize >= entries.len() || guess != 0 {
        return Err(Refusal::PositionOrGuessNotAllowed);
    }
    let standing = Standing {
        entries,
        processor,
        position,
    };
    let entry = standing.entry();
    if !suits(rule, entry.instruction) {
        return Err(Refusal::KindDoesNotSuitRule);
    }
    if made(rule, entry) {
        return Err(Refusal::StepAlreadyMade);
    }
    standing.action(rule)
}

/// A fetch: the entry that it adds to the buffer, or the first cause that refuses it.
pub fn fetch(
    question: &Question,
    processor: u8,
    counter: u16,
    entries: &[Entry],
    position: u8,
    guess: u8,
) -> Result<Entry, Refusal>
    ensures { result ≡ fetch (code_at (litmus_of question.now) processor) counter entries.now position guess }
{
    let code = question.code(processor as usize);
    if counter as usize >= code.len() {
        return Err(Refusal::FetchAtEnd);
    }
    if entries.len() >= 16 {
        return Err(Refusal::BufferFull);
    }
    let instruction = code[counter as usize];
    if position != 0 || guess > 1 || (guess == 1 && !instruction.branches()) {
        return Err(Refusal::PositionOrGuessNotAllowed);
    }
    let place = counter as u8;
    let next = instruction.guessed(place, guess == 1);
    Ok(Entry::fetched(place, instruction, next))
}
