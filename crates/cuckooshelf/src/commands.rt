// The commands, one a module.
use super::failure::Failure;

pub mod check;
pub mod help;
pub mod list_question;
pub mod list_witness;
pub mod mark;
pub mod rebuild;
pub mod run;
pub mod sample;
pub mod vectors;

/// What the command line can ask for.
pub trait Command {
    fn run(&self, rt: &HostRuntime) -> Result<(), Failure>;
}
