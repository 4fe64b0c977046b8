// A register as the key of a search.

/// What writes a register.
#[derive(Clone, Copy)]
pub struct WritesRegister(pub u8);
