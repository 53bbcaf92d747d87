#![tactic(auto)]

ghost use Rattle.std.specs.Prelude.{◌≡◌, ℕ, ◌+◌, ◌-◌, ◌*◌, ◌%◌, ◌<◌, MatchOption, ◌==◌};
ghost use Rattle.montgomery.specs.Form.{Form, number_of, code_of};
ghost use Rattle.montgomery.specs.Elements.{montgomery_laws};
ghost use Rattle.montgomery.specs.Served.{form_2013265921};

mod montgomery;

use euclid::{inverse_of, residue_of};
use field::{Field, IsPrime, Served};
pub use montgomery::Montgomery;
use std::marker::PhantomData;

/// A reduction divides by 2^32.
const WORD: u64 = 4294967296;

/// A type that gives its word for what Montgomery's form takes of the prime `P`, which is below 2^31.
pub trait IsMontgomery<const P: u32>: IsPrime<P> {
    /// The negative inverse of `P` modulo 2^32.
    const NEGATIVE_INVERSE: u32;

    /// 2^64 modulo `P`.
    const SQUARE: u32;

    ghost NEGATIVE_INVERSE: { ℕ };

    ghost SQUARE: { ℕ };

    // The inverse of 2^32 modulo `P`.
    ghost back: { ℕ };

    ghost form: { Form P NEGATIVE_INVERSE SQUARE back };
}

impl IsMontgomery<2013265921> for Served {
    const NEGATIVE_INVERSE: u32 = 2013265919;

    const SQUARE: u32 = 1172168163;

    ghost NEGATIVE_INVERSE = { 2013265919 };

    ghost SQUARE = { 1172168163 };

    ghost back = { 943718400 };

    ghost form = { form_2013265921 };
}

/// The field of 2013265921 elements, 15 * 2^27 + 1, in Montgomery's form.
pub type F2013265921 = Montgomery<2013265921>;

impl<const P: u32, By: IsMontgomery<P>> Montgomery<P, By> {
    // The element whose code is a number below 2 P, but for one subtraction.
    fn settled(u: u64) -> Montgomery<P, By>
        requires { u < 2 * P }
        ensures { result.code ≡ u % P }
    {
        let code = if u >= P as u64 { u - P as u64 } else { u };
        Montgomery {
            code: code as u32,
            by: PhantomData,
        }
    }

    // Montgomery's reduction: a multiple of `P` makes `t` a multiple of 2^32, and what that divides to is `t` / 2^32 modulo `P`.
    fn reduced(t: u64) -> Montgomery<P, By>
        requires { t < P * 4294967296 }
        ensures { result.code ≡ number_of P By.back t }
    {
        let m = t % WORD * By::NEGATIVE_INVERSE as u64 % WORD;
        Montgomery::settled((t + m * P as u64) / WORD)
    }
}

impl<const P: u32, By: IsMontgomery<P>> Field for Montgomery<P, By> {
    ghost modulus = { P };

    ghost number = { λ x. number_of P By.back x.code };

    ghost coded = { λ x. code_of P (number_of P By.back x.code) };

    ghost laws = { montgomery_laws P By By.NEGATIVE_INVERSE By.SQUARE By.back By.IsPrime.vouched By.form };

    fn characteristic() -> u32 {
        P
    }

    fn zero() -> Montgomery<P, By> {
        Montgomery::settled(0)
    }

    fn one() -> Montgomery<P, By> {
        Field::from_number(1)
    }

    fn from_number(n: u32) -> Montgomery<P, By> {
        Montgomery::reduced(n as u64 * By::SQUARE as u64)
    }

    fn from_i64(v: i64) -> Montgomery<P, By> {
        Field::from_number(residue_of(v, P))
    }

    fn to_number(self) -> u32 {
        Montgomery::<P, By>::reduced(self.code as u64).code
    }

    fn code(self) -> u32 {
        self.code
    }

    fn is_zero(self) -> bool {
        Field::code(self) == 0
    }

    fn add(self, other: Montgomery<P, By>) -> Montgomery<P, By> {
        Montgomery::settled(self.code as u64 + other.code as u64)
    }

    fn sub(self, other: Montgomery<P, By>) -> Montgomery<P, By> {
        Montgomery::settled(self.code as u64 + (P - other.code) as u64)
    }

    fn mul(self, other: Montgomery<P, By>) -> Montgomery<P, By> {
        Montgomery::reduced(self.code as u64 * other.code as u64)
    }

    fn neg(self) -> Montgomery<P, By> {
        Field::sub(Field::zero(), self)
    }

    fn double(self) -> Montgomery<P, By> {
        Field::add(self, self)
    }

    fn inverse(self) -> Option<Montgomery<P, By>> {
        if self.is_zero() {
            None
        } else {
            Some(Field::from_number(inverse_of(self.to_number(), P)))
        }
    }
}
