// The program without a command: a sample.
use super::super::failure::Failure;
use super::Command;
use listing::question_listing::QuestionBytes;
use listing::sample;
use listing::witness_listing::WitnessBytes;

/// Lists a question and a witness for it that the program has built in.
#[derive(Clone, Copy)]
pub struct Sample;

impl Command for Sample {
    fn run(&self, rt: &HostRuntime) -> Result<(), Failure> {
        let question = QuestionBytes(sample::QUESTION);
        let witness = WitnessBytes(sample::WITNESS);
        println!(rt; "A sample question (cuckooshelf help lists the commands):\n\n{question}\n")?;
        println!(rt; "A sample witness for it:\n\n{witness}")?;
        Ok(())
    }
}
