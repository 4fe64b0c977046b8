// Files, with their name in the failure.
use super::failure::Failure;
use super::reading::read_pair;
use question::question::Question;
use std::{fs, io};
use witness::witness::Witness;

/// Reads whole files.
pub trait ReadFiles {
    fn read_bytes(&self, path: &str) -> Result<Vec<u8>, Failure>;

    fn read_text(&self, path: &str) -> Result<String, Failure>;

    /// The question and the witness that two files are.
    fn read_pair(&self, question: &str, witness: &str) -> Result<(Question, Witness), Failure>;
}

/// What a file held, or the failure that names it.
fn named<T: Drop>(rt: &HostRuntime, path: &str, held: io::Result<T>) -> Result<T, Failure> {
    held.try_map_err(|e| Ok(Failure::Unreadable(String::from_str(rt.alloc(), path)?, e)))
}

impl ReadFiles for HostRuntime {
    fn read_bytes(&self, path: &str) -> Result<Vec<u8>, Failure> {
        named(self, path, fs::read(self, path))
    }

    fn read_text(&self, path: &str) -> Result<String, Failure> {
        named(self, path, fs::read_to_string(self, path))
    }

    fn read_pair(&self, question: &str, witness: &str) -> Result<(Question, Witness), Failure> {
        let question = self.read_bytes(question)?;
        let witness = self.read_bytes(witness)?;
        Ok(read_pair(&question, &witness)?)
    }
}
