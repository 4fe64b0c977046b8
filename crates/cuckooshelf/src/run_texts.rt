// What came of a run, as text.
pub mod answer;
pub mod run_listing;
pub mod steps;
