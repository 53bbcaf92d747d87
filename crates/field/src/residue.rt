ghost use Rattle.std.specs.Prelude.{◌≡◌, ◌<◌, ⊤};

use std::alloc::AllocError;
use std::marker::PhantomData;

/// The word of this crate for the primes that it serves.
pub struct Served;

/// A remainder modulo `P`, stored as the number itself. That `P` is a prime is the word of `By`: a crate that adds a prime gives its own.
pub struct Residue<const P: u32, By = Served> {
    pub(crate) code: u32,
    pub(crate) by: PhantomData<By>,
    ghost below: { code < P },
}

impl<const P: u32, By> Copy for Residue<P, By> {}

impl<const P: u32, By> Clone for Residue<P, By> {
    ghost is_clone = { λ x y. x ≡ y };

    ghost is_infallible = { λ _. ⊤ };

    fn clone(&self) -> Result<Self, AllocError> {
        Ok(*self)
    }
}
