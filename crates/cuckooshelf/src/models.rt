// The memory models that a witness can be checked under.
use super::words::Unknown;
use std::str::FromStr;

/// A memory model, by name.
#[derive(Clone, Copy)]
pub enum Model {
    Gam,
    Sc,
}

impl FromStr for Model {
    type Err = Unknown;

    fn from_str(word: &str) -> Result<Model, Unknown> {
        match word {
            "gam" => Ok(Model::Gam),
            "sc" => Ok(Model::Sc),
            _ => Err(Unknown),
        }
    }
}
