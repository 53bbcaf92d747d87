ghost use Rattle.std.specs.Prelude.{◌≡◌, ℕ};
ghost use Rattle.relations.specs.Meaning.{Ran, Adds};
ghost use Rattle.relations.specs.Script.{Script, run, then};
ghost use Rattle.fp_var.specs.Numbers.{constant_lc as constant_script, scaled as scaled_script, choice_of as choice_script, copied as copied_script, choice_of_constants as constants_script, weighted as weighted_script, select_script};

use crate::numbers::FpVar;
use crate::pieces::{both, constant_lc, scaled};
use allocated::{AllocatedBool, chosen_value};
use boolean::Boolean;
use field::Field;
use relations::{GadgetFault, Side, System, Variable, just, less};

/// A choice between two variables, the first where the bit is one: a witness w, with the row c * (x - y) = w - y.
fn choice_of<F: Field, S: System<F>>(
    bit: AllocatedBool,
    x: Variable,
    y: Variable,
    cs: &mut S,
) -> Result<FpVar, GadgetFault>
    ensures does { Ran (run F.Field.modulus (choice_script F.Field.modulus bit.variable x y)) (S.System.meaning cs.old) result (S.System.meaning cs.new) }
    ensures adds { Adds S.System.meaning S.System.stored S.System.knows cs.old cs.new }
{
    let c = bit.variable();
    let condition = cs.value(c)?;
    let first = cs.value(x)?;
    let second = cs.value(y)?;
    let w = cs.new_variable(Side::Witness, chosen_value(condition, first, second))?;
    cs.enforce_constraint(&just(c), &less::<F>(x, y), &less::<F>(w, y))?;
    Ok(FpVar::named(w))
}

/// A choice of which the first is a constant, as a combination.
fn choice_of_constant_first<F: Field, S: System<F>>(
    bit: AllocatedBool,
    a: u32,
    y: Variable,
    cs: &mut S,
) -> Result<FpVar, GadgetFault>
    ensures does { Ran (run F.Field.modulus (then (constant_script a) (λ x. choice_script F.Field.modulus bit.variable x y))) (S.System.meaning cs.old) result (S.System.meaning cs.new) }
    ensures adds { Adds S.System.meaning S.System.stored S.System.knows cs.old cs.new }
{
    let x = constant_lc(a, cs)?;
    choice_of(bit, x, y, cs)
}

/// A choice of which the second is a constant, as a combination.
fn choice_of_constant_second<F: Field, S: System<F>>(
    bit: AllocatedBool,
    x: Variable,
    b: u32,
    cs: &mut S,
) -> Result<FpVar, GadgetFault>
    ensures does { Ran (run F.Field.modulus (then (constant_script b) (λ y. choice_script F.Field.modulus bit.variable x y))) (S.System.meaning cs.old) result (S.System.meaning cs.new) }
    ensures adds { Adds S.System.meaning S.System.stored S.System.knows cs.old cs.new }
{
    let y = constant_lc(b, cs)?;
    choice_of(bit, x, y, cs)
}

/// A variable as a combination of its own.
fn copied<F: Field, S: System<F>>(v: Variable, cs: &mut S) -> Result<Variable, GadgetFault>
    ensures does { Ran (run F.Field.modulus (copied_script v)) (S.System.meaning cs.old) result (S.System.meaning cs.new) }
    ensures adds { Adds S.System.meaning S.System.stored S.System.knows cs.old cs.new }
{
    Ok(cs.new_lc(&just(v))?)
}

/// The sum of two variables, each times a constant.
fn weighted<F: Field, S: System<F>>(
    a: u32,
    v: Variable,
    b: u32,
    w: Variable,
    cs: &mut S,
) -> Result<FpVar, GadgetFault>
    ensures does { Ran (run F.Field.modulus (weighted_script F.Field.modulus a v b w)) (S.System.meaning cs.old) result (S.System.meaning cs.new) }
    ensures adds { Adds S.System.meaning S.System.stored S.System.knows cs.old cs.new }
{
    let x = scaled(a, v, cs)?;
    let y = scaled(b, w, cs)?;
    both(x, y, cs)
}

/// A choice between two constants: the first times the bit, and the second times its opposite, together.
fn choice_of_constants<F: Field, S: System<F>>(
    bit: AllocatedBool,
    a: u32,
    b: u32,
    cs: &mut S,
) -> Result<FpVar, GadgetFault>
    ensures does { Ran (run F.Field.modulus (constants_script F.Field.modulus bit a b)) (S.System.meaning cs.old) result (S.System.meaning cs.new) }
    ensures adds { Adds S.System.meaning S.System.stored S.System.knows cs.old cs.new }
{
    let bit_number = copied(bit.variable(), cs)?;
    let opposite = bit.not_steps(cs)?;
    let opposite_number = copied(opposite.variable(), cs)?;
    weighted(a, bit_number, b, opposite_number, cs)
}

impl FpVar {
    /// The steps of a choice: one number where a bit is one, and else another.
    pub(crate) fn choice<F: Field, S: System<F>>(
        condition: Boolean,
        a: FpVar,
        b: FpVar,
        cs: &mut S,
    ) -> Result<FpVar, GadgetFault>
        ensures does { Ran (run F.Field.modulus (select_script F.Field.modulus condition a b)) (S.System.meaning cs.old) result (S.System.meaning cs.new) }
        ensures adds { Adds S.System.meaning S.System.stored S.System.knows cs.old cs.new }
    {
        match (condition, a, b) {
            (Boolean::Constant(true), _, _) => Ok(a),
            (Boolean::Constant(false), _, _) => Ok(b),
            (Boolean::Var(c), FpVar::Constant(x), FpVar::Constant(y)) => {
                choice_of_constants(c, x, y, cs)
            }
            (Boolean::Var(c), FpVar::Constant(x), FpVar::Var(y)) => {
                choice_of_constant_first(c, x, y.variable(), cs)
            }
            (Boolean::Var(c), FpVar::Var(x), FpVar::Constant(y)) => {
                choice_of_constant_second(c, x.variable(), y, cs)
            }
            (Boolean::Var(c), FpVar::Var(x), FpVar::Var(y)) => {
                choice_of(c, x.variable(), y.variable(), cs)
            }
        }
    }
}
