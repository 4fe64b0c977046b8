// The command `witness`.
use super::super::failure::Failure;
use super::super::files::ReadFiles;
use super::Command;
use listing::witness_listing::WitnessBytes;

/// Lists the witness in a file.
#[derive(Clone, Copy)]
pub struct ListWitness<'a>(pub &'a str);

impl Command for ListWitness<'_> {
    fn run(&self, rt: &HostRuntime) -> Result<(), Failure> {
        let bytes = rt.read_bytes(self.0)?;
        rt.println(WitnessBytes(&bytes))?;
        Ok(())
    }
}
