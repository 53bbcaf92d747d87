#![tactic(auto)]

ghost use Rattle.std.specs.Prelude.{◌≡◌, ℕ, ◌+◌, ◌-◌, ◌*◌, ◌%◌, ◌<◌, MatchOption, ◌==◌};
ghost use Rattle.arith.specs.Number.{residue};
ghost use Rattle.field.specs.Laws.{FieldLaws, OddPrime};
ghost use Rattle.field.specs.Residues.{residue_laws};
ghost use Rattle.field.specs.Primes.{prime_3, prime_7, prime_101, prime_2013265921, prime_4294967291};

mod modulus;
mod residue;

use euclid::{inverse_of, residue_of};
pub use modulus::{bits, half};
pub use residue::{Residue, Served};
use std::marker::PhantomData;

// A field of a prime number of elements, each of which stands for a number below the prime.
pub trait Field: Copy {
    // The prime.
    ghost modulus: { ℕ };

    // The number below the prime that an element stands for.
    ghost number: { Self → ℕ };

    // The code that is stored for an element.
    ghost coded: { Self → ℕ };

    // The modulus is an odd prime, and the elements stand one to one for the numbers below it.
    ghost laws: { FieldLaws modulus number };

    fn characteristic() -> u32
        ensures { result ≡ modulus };

    fn zero() -> Self
        ensures { number result ≡ 0 };

    fn one() -> Self
        ensures { number result ≡ 1 };

    // Methods, and not `From<u32>`, `From<i64>` or `Add`: what each gives is said by the trait's own `number`, and a bound on std's traits could say it
    // in `laws` alone, further from the call.

    // The element that stands for a number modulo the prime.
    fn from_number(n: u32) -> Self
        ensures { number result ≡ n % modulus };

    // The element that stands for a signed number modulo the prime.
    fn from_i64(v: i64) -> Self
        ensures { number result ≡ residue modulus v };

    fn to_number(self) -> u32
        ensures { result ≡ number self };

    fn code(self) -> u32
        ensures { result ≡ coded self };

    fn is_zero(self) -> bool
        ensures { result ≡ (number self == 0) };

    fn add(self, other: Self) -> Self
        ensures { number result ≡ (number self + number other) % modulus };

    fn sub(self, other: Self) -> Self
        ensures { number result ≡ (number self + (modulus - number other)) % modulus };

    fn mul(self, other: Self) -> Self
        ensures { number result ≡ (number self * number other) % modulus };

    fn neg(self) -> Self
        ensures { number result ≡ (modulus - number self) % modulus };

    fn double(self) -> Self
        ensures { number result ≡ (2 * number self) % modulus };

    // The element whose product with this one is one; zero alone has none.
    fn inverse(self) -> Option<Self>
        ensures { MatchOption result (number self ≡ 0) (λ x. (number self * number x) % modulus ≡ 1) };
}

/// A type that gives its word for `P`: its impl proves that `P` is an odd prime. A further prime of this crate takes an impl for `Served` here and
/// a line in specs/Primes.antt; a prime of another crate takes an impl there, for a type of that crate.
pub trait IsPrime<const P: u32> {
    ghost vouched: { OddPrime P };
}

impl<const P: u32, By: IsPrime<P>> Residue<P, By> {
    // The element that is stored as `code`.
    fn of(code: u32) -> Residue<P, By>
        requires { code < P }
        ensures { result.code ≡ code }
    {
        Residue {
            code,
            by: PhantomData,
        }
    }

    // The remainder of a number.
    fn reduced(n: u64) -> Residue<P, By>
        ensures { result.code ≡ n % P }
    {
        Residue::of((n % P as u64) as u32)
    }
}

impl<const P: u32, By: IsPrime<P>> Field for Residue<P, By> {
    ghost modulus = { P };

    ghost number = { λ x. x.code };

    ghost coded = { λ x. x.code };

    ghost laws = { residue_laws P By By.vouched };

    fn characteristic() -> u32 {
        P
    }

    fn zero() -> Residue<P, By> {
        Residue::of(0)
    }

    fn one() -> Residue<P, By> {
        Residue::of(1)
    }

    fn from_number(n: u32) -> Residue<P, By> {
        Residue::reduced(n as u64)
    }

    fn from_i64(v: i64) -> Residue<P, By> {
        Residue::of(residue_of(v, P))
    }

    fn to_number(self) -> u32 {
        self.code
    }

    // The code of a plain remainder is its number.
    fn code(self) -> u32 {
        Field::to_number(self)
    }

    fn is_zero(self) -> bool {
        self.to_number() == 0
    }

    fn add(self, other: Residue<P, By>) -> Residue<P, By> {
        Residue::reduced(self.code as u64 + other.code as u64)
    }

    fn sub(self, other: Residue<P, By>) -> Residue<P, By> {
        Residue::reduced(self.code as u64 + (P - other.code) as u64)
    }

    fn mul(self, other: Residue<P, By>) -> Residue<P, By> {
        Residue::reduced(self.code as u64 * other.code as u64)
    }

    fn neg(self) -> Residue<P, By> {
        Residue::reduced((P - self.code) as u64)
    }

    fn double(self) -> Residue<P, By> {
        Residue::reduced(2 * self.code as u64)
    }

    fn inverse(self) -> Option<Residue<P, By>> {
        if self.code == 0 {
            None
        } else {
            Some(Residue::of(inverse_of(self.code, P)))
        }
    }
}

impl IsPrime<3> for Served {
    ghost vouched = { prime_3 };
}

impl IsPrime<7> for Served {
    ghost vouched = { prime_7 };
}

impl IsPrime<101> for Served {
    ghost vouched = { prime_101 };
}

// The form of this prime that is served is Montgomery's, in a crate above this one.
impl IsPrime<2013265921> for Served {
    ghost vouched = { prime_2013265921 };
}

impl IsPrime<4294967291> for Served {
    ghost vouched = { prime_4294967291 };
}

/// The field of three elements, the smallest odd prime.
pub type F3 = Residue<3>;

/// The field of seven elements.
pub type F7 = Residue<7>;

/// The field of 101 elements.
pub type F101 = Residue<101>;

/// The field of the largest prime of 32 bits, 2^32 - 5.
pub type F4294967291 = Residue<4294967291>;
