// Cases of the formats: what is read, what is refused and why, and what is listed and written.
#![tactic(auto)]

#[cfg(test)]
mod answers;
#[cfg(test)]
mod instruction_cases;
#[cfg(test)]
mod listings;
#[cfg(test)]
mod questions;
#[cfg(test)]
mod witnesses;
