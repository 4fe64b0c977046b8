// An answer to a question.

/// The bytes of a step list, four a step, or the bytes of a witness.
#[derive(Clone, Copy)]
pub enum Answer<'a> {
    Steps(&'a [u8]),
    Witness(&'a [u8]),
}
