// The registers of one processor.
ghost use Rattle.std.specs.Prelude.{◌≡◌, length};

/// Eight registers.
#[derive(Clone, Copy)]
pub struct Registers {
    pub(super) values: [u16; 8],
    ghost eight: { length values ≡ 8 },
}
