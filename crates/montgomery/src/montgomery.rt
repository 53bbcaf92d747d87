ghost use Rattle.std.specs.Prelude.{◌≡◌, ◌<◌, ⊤};

use field::Served;
use std::alloc::AllocError;
use std::marker::PhantomData;

/// A remainder modulo `P` in Montgomery's form: stored is the code, 2^32 times the number, modulo `P`. What that takes of `P` is the word of `By`.
pub struct Montgomery<const P: u32, By = Served> {
    pub(crate) code: u32,
    pub(crate) by: PhantomData<By>,
    ghost below: { code < P },
}

impl<const P: u32, By> Copy for Montgomery<P, By> {}

impl<const P: u32, By> Clone for Montgomery<P, By> {
    ghost is_clone = { λ x y. x ≡ y };

    ghost is_infallible = { λ _. ⊤ };

    fn clone(&self) -> Result<Self, AllocError> {
        Ok(*self)
    }
}
