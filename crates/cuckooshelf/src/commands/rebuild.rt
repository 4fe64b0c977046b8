// The command `rebuild`.
use super::super::failure::Failure;
use super::super::files::ReadFiles;
use super::super::run_texts::steps::StepLines;
use super::Command;
use listing::refusal::RefusalText;
use question::question::Question;
use rebuilder::rebuild::rebuild;
use witness::witness::Witness;

/// Rebuilds the steps of the witness in a file for the question in another.
#[derive(Clone, Copy)]
pub struct Rebuild<'a> {
    pub question: &'a str,
    pub witness: &'a str,
}

/// Prints the steps that lead to a witness, or why there are none.
fn print_steps(rt: &HostRuntime, question: &Question, witness: &Witness) -> Result<(), Failure> {
    let mut area = [0; 1024];
    match rebuild(question, witness, &mut area) {
        Ok(length) => rt.println(StepLines(&area[..length]))?,
        Err(refusal) => rt.println(RefusalText(refusal))?,
    }
    Ok(())
}

impl Command for Rebuild<'_> {
    fn run(&self, rt: &HostRuntime) -> Result<(), Failure> {
        let (question, witness) = rt.read_pair(self.question, self.witness)?;
        print_steps(rt, &question, &witness)
    }
}
