// A vector of fixed capacity: its first `len` slots are its elements.
ghost use Rattle.std.specs.Prelude.{◌≡◌, ◌≤◌, length};

use std::alloc::AllocError;

pub mod methods;

#[derive(Copy)]
pub struct Bounded<T, const N: usize> {
    slots: [T; N],
    len: usize,
    ghost full: { length slots ≡ N },
    ghost fits: { len ≤ N },
}

impl<T: Copy, const N: usize> Clone for Bounded<T, N> {
    // A copy is the same vector, and needs no memory.
    ghost is_clone = { λ v w. w ≡ v };

    ghost is_infallible = { λ _. Unit {0} };

    fn clone(&self) -> Result<Self, AllocError> {
        Ok(*self)
    }
}
