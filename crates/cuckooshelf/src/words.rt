// Words that name something.
use super::failure::Failure;
use std::str::FromStr;

/// A word that names nothing.
#[derive(Clone, Copy, Debug)]
pub struct Unknown;

/// What a word names, or the failure that holds the word.
pub fn named<T: FromStr<Err = Unknown>, F: FnOnce(String) -> Failure>(
    word: &String,
    failure: F,
) -> Result<T, Failure>
    requires { F.IsAlwaysCallable failure }
{
    word.parse::<T>()
        .try_map_err(|_| Ok(failure(word.clone()?)))
}
