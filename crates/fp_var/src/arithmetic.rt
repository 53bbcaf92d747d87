ghost use Rattle.std.specs.Prelude.{◌≡◌, ℕ};
ghost use Rattle.std.specs.Option.{option_map};
ghost use Rattle.relations.specs.Meaning.{Ran, Adds};
ghost use Rattle.relations.specs.Script.{Script, run};
ghost use Rattle.fp.specs.Equality.{where_both};
ghost use Rattle.fp_var.specs.Numbers.{alloc_script, add_constant as added_script, add_script, negated as negated_script, negate_script, less_constant as less_constant_script, constant_less as constant_less_script, sub_script, double_script, product as product_of, mul_constant as times_constant_script, mul_variables as product_script, mul_script, inverse_known, inverse_variable as inverse_variable_script, inverse_script, of_bit_script};

use crate::numbers::FpVar;
use crate::pieces::{both, element, linear, scaled};
use crate::residues::{inverse, opposite, product, sum, twice};
use boolean::{AllocationMode, Boolean};
use field::Field;
use relations::{GadgetFault, Side, System, Variable, just, less, minus_one, times};

/// A constant added to a variable: the variable itself where the constant is 0.
fn add_constant<F: Field, S: System<F>>(
    c: u32,
    v: Variable,
    cs: &mut S,
) -> Result<FpVar, GadgetFault>
    ensures does { Ran (run F.Field.modulus (added_script F.Field.modulus c v)) (S.System.meaning cs.old) result (S.System.meaning cs.new) }
    ensures adds { Adds S.System.meaning S.System.stored S.System.knows cs.old cs.new }
{
    if F::from_number(c).is_zero() {
        return Ok(FpVar::named(v));
    }
    linear(&[times(1, v), times(c, Variable::One)], cs)
}

/// Minus a variable.
fn negated<F: Field, S: System<F>>(v: Variable, cs: &mut S) -> Result<FpVar, GadgetFault>
    ensures does { Ran (run F.Field.modulus (negated_script F.Field.modulus v)) (S.System.meaning cs.old) result (S.System.meaning cs.new) }
    ensures adds { Adds S.System.meaning S.System.stored S.System.knows cs.old cs.new }
{
    linear(&[times(minus_one::<F>(), v)], cs)
}

/// A variable less a constant.
fn less_constant<F: Field, S: System<F>>(
    v: Variable,
    c: u32,
    cs: &mut S,
) -> Result<FpVar, GadgetFault>
    ensures does { Ran (run F.Field.modulus (less_constant_script F.Field.modulus v c)) (S.System.meaning cs.old) result (S.System.meaning cs.new) }
    ensures adds { Adds S.System.meaning S.System.stored S.System.knows cs.old cs.new }
{
    linear(&[times(1, v), times(opposite::<F>(c), Variable::One)], cs)
}

/// A constant less a variable: minus the variable where the constant is 0, else minus the combination of the variable less the constant.
fn constant_less<F: Field, S: System<F>>(
    c: u32,
    v: Variable,
    cs: &mut S,
) -> Result<FpVar, GadgetFault>
    ensures does { Ran (run F.Field.modulus (constant_less_script F.Field.modulus c v)) (S.System.meaning cs.old) result (S.System.meaning cs.new) }
    ensures adds { Adds S.System.meaning S.System.stored S.System.knows cs.old cs.new }
{
    if F::from_number(c).is_zero() {
        return negated(v, cs);
    }
    less_constant(v, c, cs)?.negate_steps(cs)
}

/// The product of two values, where both are there.
fn product_value<F: Field>(x: Option<F>, y: Option<F>) -> Option<F>
    ensures { option_map F.Field.number result ≡ where_both (product_of F.Field.modulus) (option_map F.Field.number x) (option_map F.Field.number y) }
{
    Some(x?.mul(y?))
}

/// A variable times a constant, as a number.
fn mul_constant<F: Field, S: System<F>>(
    c: u32,
    v: Variable,
    cs: &mut S,
) -> Result<FpVar, GadgetFault>
    ensures does { Ran (run F.Field.modulus (times_constant_script F.Field.modulus c v)) (S.System.meaning cs.old) result (S.System.meaning cs.new) }
    ensures adds { Adds S.System.meaning S.System.stored S.System.knows cs.old cs.new }
{
    Ok(FpVar::named(scaled(c, v, cs)?))
}

/// A witness w for the product of two variables, with the row a * b = w.
fn mul_variables<F: Field, S: System<F>>(
    a: Variable,
    b: Variable,
    cs: &mut S,
) -> Result<FpVar, GadgetFault>
    ensures does { Ran (run F.Field.modulus (product_script F.Field.modulus a b)) (S.System.meaning cs.old) result (S.System.meaning cs.new) }
    ensures adds { Adds S.System.meaning S.System.stored S.System.knows cs.old cs.new }
{
    let x = cs.value(a)?;
    let y = cs.value(b)?;
    let w = cs.new_variable(Side::Witness, product_value(x, y))?;
    cs.enforce_constraint(&just(a), &just(b), &just(w))?;
    Ok(FpVar::named(w))
}

/// The inverse of a value, and 0 for 0.
fn inverse_value<F: Field>(x: Option<F>) -> Option<F>
    ensures { option_map F.Field.number result ≡ inverse_known F.Field.modulus (option_map F.Field.number x) }
{
    Some(x?.inverse().unwrap_or(F::zero()))
}

/// A witness w for the inverse of a variable, with the row v * w = 1.
fn inverse_variable<F: Field, S: System<F>>(v: Variable, cs: &mut S) -> Result<FpVar, GadgetFault>
    ensures does { Ran (run F.Field.modulus (inverse_variable_script F.Field.modulus v)) (S.System.meaning cs.old) result (S.System.meaning cs.new) }
    ensures adds { Adds S.System.meaning S.System.stored S.System.knows cs.old cs.new }
{
    let x = cs.value(v)?;
    let w = cs.new_variable(Side::Witness, inverse_value(x))?;
    cs.enforce_constraint(&just(v), &just(w), &just(Variable::One))?;
    Ok(FpVar::named(w))
}

impl FpVar {
    /// The steps of an allocation: a constant asks nothing of the system, and no row forces an input or a witness.
    pub fn alloc_steps<F: Field, S: System<F>>(
        cs: &mut S,
        value: Option<u32>,
        mode: AllocationMode,
    ) -> Result<FpVar, GadgetFault>
        ensures does { Ran (run F.Field.modulus (alloc_script F.Field.modulus mode value)) (S.System.meaning cs.old) result (S.System.meaning cs.new) }
        ensures adds { Adds S.System.meaning S.System.stored S.System.knows cs.old cs.new }
    {
        let value = element::<F>(value);
        let side = match mode {
            AllocationMode::Constant => {
                let constant = value.ok_or(GadgetFault::NoValue)?;
                return Ok(FpVar::of_element(constant));
            }
            AllocationMode::Input => Side::Input,
            AllocationMode::Witness => Side::Witness,
        };
        Ok(FpVar::named(cs.new_variable(side, value)?))
    }

    /// The steps of a sum.
    pub fn add_steps<F: Field, S: System<F>>(
        self,
        other: FpVar,
        cs: &mut S,
    ) -> Result<FpVar, GadgetFault>
        ensures does { Ran (run F.Field.modulus (add_script F.Field.modulus self other)) (S.System.meaning cs.old) result (S.System.meaning cs.new) }
        ensures adds { Adds S.System.meaning S.System.stored S.System.knows cs.old cs.new }
    {
        match (self, other) {
            (FpVar::Constant(a), FpVar::Constant(b)) => Ok(FpVar::Constant(sum::<F>(a, b))),
            (FpVar::Constant(c), FpVar::Var(v)) | (FpVar::Var(v), FpVar::Constant(c)) => {
                add_constant(c, v.variable(), cs)
            }
            (FpVar::Var(a), FpVar::Var(b)) => both(a.variable(), b.variable(), cs),
        }
    }

    /// The steps of a difference.
    pub fn sub_steps<F: Field, S: System<F>>(
        self,
        other: FpVar,
        cs: &mut S,
    ) -> Result<FpVar, GadgetFault>
        ensures does { Ran (run F.Field.modulus (sub_script F.Field.modulus self other)) (S.System.meaning cs.old) result (S.System.meaning cs.new) }
        ensures adds { Adds S.System.meaning S.System.stored S.System.knows cs.old cs.new }
    {
        match (self, other) {
            (FpVar::Constant(a), FpVar::Constant(b)) => {
                Ok(FpVar::Constant(sum::<F>(a, opposite::<F>(b))))
            }
            (FpVar::Constant(a), FpVar::Var(b)) => constant_less(a, b.variable(), cs),
            (FpVar::Var(a), FpVar::Constant(b)) => add_constant(opposite::<F>(b), a.variable(), cs),
            (FpVar::Var(a), FpVar::Var(b)) => linear(&less::<F>(a.variable(), b.variable()), cs),
        }
    }

    /// The steps of minus a number.
    pub fn negate_steps<F: Field, S: System<F>>(self, cs: &mut S) -> Result<FpVar, GadgetFault>
        ensures does { Ran (run F.Field.modulus (negate_script F.Field.modulus self)) (S.System.meaning cs.old) result (S.System.meaning cs.new) }
        ensures adds { Adds S.System.meaning S.System.stored S.System.knows cs.old cs.new }
    {
        match self {
            FpVar::Constant(a) => Ok(FpVar::Constant(opposite::<F>(a))),
            FpVar::Var(a) => negated(a.variable(), cs),
        }
    }

    /// The steps of twice a number.
    pub fn double_steps<F: Field, S: System<F>>(self, cs: &mut S) -> Result<FpVar, GadgetFault>
        ensures does { Ran (run F.Field.modulus (double_script F.Field.modulus self)) (S.System.meaning cs.old) result (S.System.meaning cs.new) }
        ensures adds { Adds S.System.meaning S.System.stored S.System.knows cs.old cs.new }
    {
        match self {
            FpVar::Constant(a) => Ok(FpVar::Constant(twice::<F>(a))),
            FpVar::Var(a) => linear(&[times(2, a.variable())], cs),
        }
    }

    /// The steps of a product.
    pub fn mul_steps<F: Field, S: System<F>>(
        self,
        other: FpVar,
        cs: &mut S,
    ) -> Result<FpVar, GadgetFault>
        ensures does { Ran (run F.Field.modulus (mul_script F.Field.modulus self other)) (S.System.meaning cs.old) result (S.System.meaning cs.new) }
        ensures adds { Adds S.System.meaning S.System.stored S.System.knows cs.old cs.new }
    {
        match (self, other) {
            (FpVar::Constant(a), FpVar::Constant(b)) => Ok(FpVar::Constant(product::<F>(a, b))),
            (FpVar::Constant(c), FpVar::Var(v)) | (FpVar::Var(v), FpVar::Constant(c)) => {
                mul_constant(c, v.variable(), cs)
            }
            (FpVar::Var(a), FpVar::Var(b)) => mul_variables(a.variable(), b.variable(), cs),
        }
    }

    /// The steps of an inverse: the constant 0 has none, and is refused.
    pub fn inverse_steps<F: Field, S: System<F>>(self, cs: &mut S) -> Result<FpVar, GadgetFault>
        ensures does { Ran (run F.Field.modulus (inverse_script F.Field.modulus self)) (S.System.meaning cs.old) result (S.System.meaning cs.new) }
        ensures adds { Adds S.System.meaning S.System.stored S.System.knows cs.old cs.new }
    {
        match self {
            FpVar::Constant(a) => {
                let inverse = inverse::<F>(a).ok_or(GadgetFault::NoValue)?;
                Ok(FpVar::Constant(inverse))
            }
            FpVar::Var(a) => inverse_variable(a.variable(), cs),
        }
    }

    /// The steps of a bit as a number.
    pub fn from_bit_steps<F: Field, S: System<F>>(
        bit: Boolean,
        cs: &mut S,
    ) -> Result<FpVar, GadgetFault>
        ensures does { Ran (run F.Field.modulus (of_bit_script bit)) (S.System.meaning cs.old) result (S.System.meaning cs.new) }
        ensures adds { Adds S.System.meaning S.System.stored S.System.knows cs.old cs.new }
    {
        match bit {
            Boolean::Constant(b) => Ok(FpVar::Constant(u32::from(b))),
            Boolean::Var(a) => linear(&just(a.variable()), cs),
        }
    }
}
