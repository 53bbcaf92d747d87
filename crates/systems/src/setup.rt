ghost use Rattle.std.specs.Prelude.{◌≡◌};
ghost use Rattle.words.specs.State.{Fit};
ghost use Rattle.systems.specs.Order.{Ordered};
ghost use Rattle.systems.specs.Blank.{Blank};
ghost use Rattle.systems.specs.Props.{fit_prop, ordered_prop, blank_prop};
ghost use Rattle.systems.specs.Stores.{bare};

use crate::store::Store;
use field::Field;
use std::marker::PhantomData;

/// A constraint system over lent words that keeps no values: for setup, where only the shape of the rows is wanted. It holds what a
/// `Valued` holds beside its values, and 0 stands where a combination's value would be kept.
#[derive(Drop)]
pub struct Setup<'a, F: Field> {
    pub(crate) store: Store<'a>,
    pub(crate) of: PhantomData<F>,
    ghost prime: { store.modulus ≡ F.Field.modulus },
    ghost fit: { Fit (bare store) } by { fit_prop (bare store) },
    ghost ordered: { Ordered (bare store) } by { ordered_prop (bare store) },
    ghost blank: { Blank (bare store) } by { blank_prop (bare store) },
}
