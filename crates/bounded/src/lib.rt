//! A list of at most `N` items that lies in place, without a heap.
#![tactic(auto)]

ghost use Rattle.std.specs.Prelude.{◌≡◌, ◌≤◌, length, ⊤};

use std::alloc::AllocError;

mod calls;

/// A list of at most `N` items: the first `len` of the places. An item past the last place is lost.
#[derive(Copy)]
pub struct Bounded<T, const N: usize> {
    items: [T; N],
    len: usize,
    ghost full: { length items ≡ N },
    ghost within: { len ≤ N },
}

// By hand, since a derive for a generic struct passes over no ghost field.
impl<T: Copy, const N: usize> Clone for Bounded<T, N> {
    ghost is_clone = { λ x y. y ≡ x };

    ghost is_infallible = { λ _. ⊤ };

    fn clone(&self) -> Result<Self, AllocError> {
        Ok(*self)
    }
}
