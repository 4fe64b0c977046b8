// The command `run`.
use super::super::failure::Failure;
use super::super::files::ReadFiles;
use super::super::memories::MemoryKind;
use super::super::reading::Refused;
use super::super::run_texts::run_listing::RunListing;
use super::Command;
use question::question::Question;
use runs::step_bytes::steps_of;

/// Runs the steps in a file for the question in another.
#[derive(Clone, Copy)]
pub struct Run<'a> {
    pub question: &'a str,
    pub steps: &'a str,
    pub memory: MemoryKind,
}

impl Command for Run<'_> {
    fn run(&self, rt: &HostRuntime) -> Result<(), Failure> {
        let bytes = rt.read_bytes(self.question)?;
        let step_bytes = rt.read_bytes(self.steps)?;
        let Some(steps) = steps_of(rt.alloc(), &step_bytes)? else {
            return Err(Failure::PartOfStep(String::from_str(rt.alloc(), self.steps)?));
        };
        let mut question = Question::new();
        question.read(&bytes).map_err(Refused::Run)?;
        let record = self.memory.run_steps(rt.alloc(), &question, &steps)?;
        rt.println(RunListing {
            steps: &steps,
            record: &record,
        })?;
        Ok(())
    }
}
