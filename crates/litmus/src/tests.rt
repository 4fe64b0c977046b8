// A litmus test from a line of text.
use super::untried::Untried;
use hexadecimal::decode::decode;
use question::question::Question;
use std::alloc::Global;

/// A question with the values that its loads read, by processor then position, and whether GAM allows that.
#[derive(Drop)]
pub struct LitmusTest<'a> {
    pub name: &'a str,
    pub outcome: &'a str,
    pub allowed: bool,
    pub question: Question,
    pub values: Vec<u16>,
}

/// The part before a semicolon and the part behind it, without the spaces around them.
fn cut(text: &str) -> Option<(&str, &str)> {
    let (before, behind) = text.split_once(';')?;
    Some((before.trim(), behind.trim()))
}

impl<'a> LitmusTest<'a> {
    /// The test of a line `NAME; OUTCOME; allowed or forbidden; QUESTION; VALUES`.
    pub fn parse(heap: Global, line: &'a str) -> Result<LitmusTest<'a>, Untried<'a>> {
        let part = |text| cut(text).ok_or(Untried::Malformed(line));
        let (name, rest) = part(line)?;
        let (outcome, rest) = part(rest)?;
        let (word, rest) = part(rest)?;
        let (digits, values) = part(rest)?;
        let bytes = decode(heap, digits.as_bytes())?.ok_or(Untried::Malformed(line))?;
        let mut question = Question::new();
        question.read(&bytes).map_err(|_| Untried::Malformed(line))?;
        let values = values
            .split_whitespace()
            .map(|value| value.parse::<u16>().map_err(|_| Untried::Malformed(line)))
            .try_collect(heap)?;
        Ok(LitmusTest {
            name,
            outcome,
            allowed: word == "allowed",
            question,
            values,
        })
    }
}
