// What a whole run gives.
use fields::refusal::Refusal;
use memory::cell::Cell;

/// What a finished run gives.
#[derive(Drop)]
pub struct Results {
    /// eight a processor
    pub registers: Vec<u16>,
    /// all sixteen
    pub cells: Vec<Cell>,
    /// the bytes of the witness
    pub witness: Vec<u8>,
}

/// What came of a run: the answer to each step, and the results if it is finished.
#[derive(Drop)]
pub struct Record {
    pub answers: Vec<Result<u8, Refusal>>,
    pub results: Option<Results>,
}
