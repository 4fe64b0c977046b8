// The command `check`.
use super::super::failure::Failure;
use super::super::files::ReadFiles;
use super::super::models::Model;
use super::Command;
use check_listing::verdict_listing::CheckListing;
use ordering::gam::Gam;
use ordering::sequential::Sequential;
use question::question::Question;
use witness::witness::Witness;

/// Checks the witness in a file against the question in another.
#[derive(Clone, Copy)]
pub struct Check<'a> {
    pub model: Model,
    pub question: &'a str,
    pub witness: &'a str,
}

/// Prints the verdict and what is behind it.
fn print_check<'x>(
    rt: &HostRuntime,
    model: Model,
    question: &'x Question,
    witness: &'x Witness,
) -> Result<(), Failure> {
    match model {
        Model::Gam => rt.println(CheckListing {
            rule: &Gam,
            question,
            witness,
        })?,
        Model::Sc => rt.println(CheckListing {
            rule: &Sequential,
            question,
            witness,
        })?,
    }
    Ok(())
}

impl Command for Check<'_> {
    fn run(&self, rt: &HostRuntime) -> Result<(), Failure> {
        let (question, witness) = rt.read_pair(self.question, self.witness)?;
        print_check(rt, self.model, &question, &witness)
    }
}
