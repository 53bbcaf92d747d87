ghost use Rattle.std.specs.Prelude.{◌≡◌};
ghost use Rattle.words.specs.State.{Fit};
ghost use Rattle.systems.specs.Order.{Ordered};
ghost use Rattle.systems.specs.Props.{fit_prop, ordered_prop};
ghost use Rattle.systems.specs.Stores.{beside};

use crate::store::Store;
use field::Field;
use std::marker::PhantomData;

// The values are a lent slice, as the words of its store are.
/// A constraint system over lent words that keeps the value of each variable: beside the store a word for each input, and
/// from the input room on a word for each witness.
#[derive(Drop)]
pub struct Valued<'a, F: Field> {
    pub(crate) store: Store<'a>,
    pub(crate) values: &'a mut [u32],
    pub(crate) of: PhantomData<F>,
    ghost prime: { store.modulus ≡ F.Field.modulus },
    ghost fit: { Fit (beside store values.now) } by { fit_prop (beside store values.now) },
    ghost ordered: { Ordered (beside store values.now) } by { ordered_prop (beside store values.now) },
}

// A system keeps no element of its field, only its numbers: it goes to another thread, or is shared, whatever the field.

unsafe impl<'a, F: Field> Send for Valued<'a, F> {}

unsafe impl<'a, F: Field> Sync for Valued<'a, F> {}
