ghost use Rattle.std.specs.Prelude.{◌≡◌, ℕ, ◌+◌, ◌*◌, ◌%◌, ◌==◌, cond, Some as some, None as none};
ghost use Rattle.fp.specs.Equality.{inverse as inverse_of};
ghost use Rattle.fp_var.specs.Numbers.{opposite as opposite_of, product as product_of, same_constants};

use field::Field;

// Constants, here, are numbers of 32 bits, and each answer is the remainder of one.

/// The sum of two constants, modulo the prime.
pub(crate) fn sum<F: Field>(a: u32, b: u32) -> u32
    ensures { result ≡ (a + b) % F.Field.modulus }
{
    F::from_number(a).add(F::from_number(b)).to_number()
}

/// Minus a constant, modulo the prime.
pub(crate) fn opposite<F: Field>(a: u32) -> u32
    ensures { result ≡ opposite_of F.Field.modulus a }
{
    F::from_number(a).neg().to_number()
}

/// Twice a constant, modulo the prime.
pub(crate) fn twice<F: Field>(a: u32) -> u32
    ensures { result ≡ (2 * a) % F.Field.modulus }
{
    F::from_number(a).double().to_number()
}

/// The product of two constants, modulo the prime.
pub(crate) fn product<F: Field>(a: u32, b: u32) -> u32
    ensures { result ≡ product_of F.Field.modulus a b }
{
    F::from_number(a).mul(F::from_number(b)).to_number()
}

/// The inverse of a constant, modulo the prime: none for zero alone.
pub(crate) fn inverse<F: Field>(a: u32) -> Option<u32>
    ensures { result ≡ cond (a % F.Field.modulus == 0) none (some (inverse_of F.Field.modulus (a % F.Field.modulus))) }
{
    Some(F::from_number(a).inverse()?.to_number())
}

/// Whether two constants are equal, modulo the prime.
pub(crate) fn same<F: Field>(a: u32, b: u32) -> bool
    ensures { result ≡ same_constants F.Field.modulus a b }
{
    F::from_number(a).to_number() == F::from_number(b).to_number()
}
