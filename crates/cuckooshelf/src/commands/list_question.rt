// The command `question`.
use super::super::failure::Failure;
use super::super::files::ReadFiles;
use super::Command;
use listing::question_listing::QuestionBytes;

/// Lists the question in a file.
#[derive(Clone, Copy)]
pub struct ListQuestion<'a>(pub &'a str);

impl Command for ListQuestion<'_> {
    fn run(&self, rt: &HostRuntime) -> Result<(), Failure> {
        let bytes = rt.read_bytes(self.0)?;
        rt.println(QuestionBytes(&bytes))?;
        Ok(())
    }
}
