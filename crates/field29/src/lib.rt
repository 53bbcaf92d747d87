// A field of 29 elements, added by a crate that is not `field`: a type that gives its word for 29, and the alias.
#![tactic(auto)]

ghost use Rattle.field29.specs.Prime.{prime_29};

use field::{IsPrime, Residue};

/// The word of this crate that 29 is a prime.
pub struct Prime29;

impl IsPrime<29> for Prime29 {
    ghost vouched = { prime_29 };
}

/// The field of 29 elements.
pub type F29 = Residue<29, Prime29>;
