ghost use Rattle.std.specs.Prelude.{◌≡◌, ℕ};
ghost use Rattle.std.specs.Option.{option_map};
ghost use Rattle.relations.specs.Meaning.{Meaning, Ran, Adds};
ghost use Rattle.relations.specs.Script.{Script, run, then};
ghost use Rattle.fp_var.specs.Numbers.{constant_lc as constant_lc_script, scaled as scaled_script, holding as holding_script, variable_is as variable_is_script, constant_is as constant_is_script, product_is as product_is_script, product_row as product_row_script, constant_square_is as constant_square_script, mul_equals_script, square_equals_script, condition as condition_of, equal_row as equal_row_script, beside, equal_script, apart as apart_of, apart_values, apart_row as apart_row_script, apart_from_known as apart_from_known_script, apart_from as apart_from_script, apart_both as apart_both_script, unequal_script};

use crate::numbers::FpVar;
use crate::pieces::{constant_lc, scaled};
use crate::residues::{product, same};
use boolean::Boolean;
use field::Field;
use relations::{GadgetFault, Side, System, Variable, just, less};

/// A statement on constants alone: nothing where it holds, else a refusal.
pub fn holding(holds: bool) -> Result<(), GadgetFault>
    ensures { (p : ℕ) → (m : Meaning) → run p (holding_script holds) m ≡ (result, m) }
{
    if holds {
        Ok(())
    } else {
        Err(GadgetFault::Unsatisfiable)
    }
}

/// A condition as a variable, constants too.
fn condition_variable(condition: Boolean) -> Variable
    ensures { result ≡ condition_of condition }
{
    match condition {
        Boolean::Constant(true) => Variable::One,
        Boolean::Constant(false) => Variable::Zero,
        Boolean::Var(c) => c.variable(),
    }
}

/// The row (x - y) * k = 0: where k is 1, x and y are equal.
fn equal_row<F: Field, S: System<F>>(
    k: Variable,
    x: Variable,
    y: Variable,
    cs: &mut S,
) -> Result<(), GadgetFault>
    ensures does { Ran (run F.Field.modulus (equal_row_script F.Field.modulus k x y)) (S.System.meaning cs.old) result (S.System.meaning cs.new) }
    ensures adds { Adds S.System.meaning S.System.stored S.System.knows cs.old cs.new }
{
    cs.enforce_constraint(&less::<F>(x, y), &just(k), &[])?;
    Ok(())
}

/// The same of a constant, as a combination, and a variable.
fn constant_equal_row<F: Field, S: System<F>>(
    k: Variable,
    c: u32,
    v: Variable,
    cs: &mut S,
) -> Result<(), GadgetFault>
    ensures does { Ran (run F.Field.modulus (beside c v (equal_row_script F.Field.modulus k))) (S.System.meaning cs.old) result (S.System.meaning cs.new) }
    ensures adds { Adds S.System.meaning S.System.stored S.System.knows cs.old cs.new }
{
    let x = constant_lc(c, cs)?;
    equal_row(k, x, v, cs)
}

/// A variable is a number.
fn variable_is<F: Field, S: System<F>>(
    m: Variable,
    number: FpVar,
    cs: &mut S,
) -> Result<(), GadgetFault>
    ensures does { Ran (run F.Field.modulus (variable_is_script F.Field.modulus m number)) (S.System.meaning cs.old) result (S.System.meaning cs.new) }
    ensures adds { Adds S.System.meaning S.System.stored S.System.knows cs.old cs.new }
{
    match number {
        FpVar::Constant(c) => constant_equal_row(Variable::One, c, m, cs),
        FpVar::Var(c) => equal_row(Variable::One, c.variable(), m, cs),
    }
}

/// A constant is a number.
fn constant_is<F: Field, S: System<F>>(m: u32, number: FpVar, cs: &mut S) -> Result<(), GadgetFault>
    ensures does { Ran (run F.Field.modulus (constant_is_script F.Field.modulus m number)) (S.System.meaning cs.old) result (S.System.meaning cs.new) }
    ensures adds { Adds S.System.meaning S.System.stored S.System.knows cs.old cs.new }
{
    match number {
        FpVar::Constant(c) => holding(same::<F>(m, c)),
        FpVar::Var(c) => constant_equal_row(Variable::One, m, c.variable(), cs),
    }
}

/// A variable times a constant is a number.
fn scaled_is<F: Field, S: System<F>>(
    c: u32,
    v: Variable,
    number: FpVar,
    cs: &mut S,
) -> Result<(), GadgetFault>
    ensures does { Ran (run F.Field.modulus (then (scaled_script F.Field.modulus c v) (λ m. variable_is_script F.Field.modulus m number))) (S.System.meaning cs.old) result (S.System.meaning cs.new) }
    ensures adds { Adds S.System.meaning S.System.stored S.System.knows cs.old cs.new }
{
    let m = scaled(c, v, cs)?;
    variable_is(m, number, cs)
}

/// The row a * b = x.
fn product_is<F: Field, S: System<F>>(
    a: Variable,
    b: Variable,
    x: Variable,
    cs: &mut S,
) -> Result<(), GadgetFault>
    ensures does { Ran (run F.Field.modulus (product_is_script a b x)) (S.System.meaning cs.old) result (S.System.meaning cs.new) }
    ensures adds { Adds S.System.meaning S.System.stored S.System.knows cs.old cs.new }
{
    cs.enforce_constraint(&just(a), &just(b), &just(x))?;
    Ok(())
}

/// The product of two variables is a constant, which enters as a combination.
fn product_is_constant<F: Field, S: System<F>>(
    a: Variable,
    b: Variable,
    c: u32,
    cs: &mut S,
) -> Result<(), GadgetFault>
    ensures does { Ran (run F.Field.modulus (then (constant_lc_script c) (product_is_script a b))) (S.System.meaning cs.old) result (S.System.meaning cs.new) }
    ensures adds { Adds S.System.meaning S.System.stored S.System.knows cs.old cs.new }
{
    let x = constant_lc(c, cs)?;
    product_is(a, b, x, cs)
}

/// The product of two variables is a number.
fn product_row<F: Field, S: System<F>>(
    a: Variable,
    b: Variable,
    number: FpVar,
    cs: &mut S,
) -> Result<(), GadgetFault>
    ensures does { Ran (run F.Field.modulus (product_row_script a b number)) (S.System.meaning cs.old) result (S.System.meaning cs.new) }
    ensures adds { Adds S.System.meaning S.System.stored S.System.knows cs.old cs.new }
{
    match number {
        FpVar::Constant(c) => product_is_constant(a, b, c, cs),
        FpVar::Var(c) => product_is(a, b, c.variable(), cs),
    }
}

/// The square of a constant, which enters as a combination, is a variable.
fn constant_square_is<F: Field, S: System<F>>(
    c: u32,
    v: Variable,
    cs: &mut S,
) -> Result<(), GadgetFault>
    ensures does { Ran (run F.Field.modulus (constant_square_script c v)) (S.System.meaning cs.old) result (S.System.meaning cs.new) }
    ensures adds { Adds S.System.meaning S.System.stored S.System.knows cs.old cs.new }
{
    let x = constant_lc(c, cs)?;
    product_is(x, x, v, cs)
}

/// The number that multiplies the difference of two values to 1 where a condition is 1, and none where they are equal then; 0 where the condition is 0.
fn apart<F: Field>(x: F, y: F, condition: F) -> Option<F>
    ensures { option_map F.Field.number result ≡ apart_of F.Field.modulus (F.Field.number x) (F.Field.number y) (F.Field.number condition) }
{
    if condition.is_zero() {
        Some(condition)
    } else {
        x.sub(y).inverse()
    }
}

/// The same of values that may be absent.
fn apart_value<F: Field>(x: Option<F>, y: Option<F>, condition: Option<F>) -> Option<F>
    ensures { option_map F.Field.number result ≡ apart_values F.Field.modulus (option_map F.Field.number x) (option_map F.Field.number y) (option_map F.Field.number condition) }
{
    apart(x?, y?, condition?)
}

/// The row (x - y) * m = k.
fn apart_row<F: Field, S: System<F>>(
    k: Variable,
    x: Variable,
    y: Variable,
    m: Variable,
    cs: &mut S,
) -> Result<(), GadgetFault>
    ensures does { Ran (run F.Field.modulus (apart_row_script F.Field.modulus k x y m)) (S.System.meaning cs.old) result (S.System.meaning cs.new) }
    ensures adds { Adds S.System.meaning S.System.stored S.System.knows cs.old cs.new }
{
    cs.enforce_constraint(&less::<F>(x, y), &just(m), &just(k))?;
    Ok(())
}

/// Where a condition k is 1, two variables differ, of which the value of x is a constant and is not asked for.
fn apart_from_known<F: Field, S: System<F>>(
    k: Variable,
    a: u32,
    x: Variable,
    y: Variable,
    cs: &mut S,
) -> Result<(), GadgetFault>
    ensures does { Ran (run F.Field.modulus (apart_from_known_script F.Field.modulus a x y k)) (S.System.meaning cs.old) result (S.System.meaning cs.new) }
    ensures adds { Adds S.System.meaning S.System.stored S.System.knows cs.old cs.new }
{
    let value = cs.value(y)?;
    let condition = cs.value(k)?;
    let m = cs.new_variable(
        Side::Witness,
        apart_value(Some(F::from_number(a)), value, condition),
    )?;
    apart_row(k, x, y, m, cs)
}

/// Where a condition k is 1, a constant, as a combination, and a variable differ.
fn apart_from<F: Field, S: System<F>>(
    k: Variable,
    a: u32,
    v: Variable,
    cs: &mut S,
) -> Result<(), GadgetFault>
    ensures does { Ran (run F.Field.modulus (apart_from_script F.Field.modulus a v k)) (S.System.meaning cs.old) result (S.System.meaning cs.new) }
    ensures adds { Adds S.System.meaning S.System.stored S.System.knows cs.old cs.new }
{
    let x = constant_lc(a, cs)?;
    apart_from_known(k, a, x, v, cs)
}

/// Where a condition k is 1, two variables differ: a witness m that multiplies their difference to k.
fn apart_both<F: Field, S: System<F>>(
    k: Variable,
    x: Variable,
    y: Variable,
    cs: &mut S,
) -> Result<(), GadgetFault>
    ensures does { Ran (run F.Field.modulus (apart_both_script F.Field.modulus x y k)) (S.System.meaning cs.old) result (S.System.meaning cs.new) }
    ensures adds { Adds S.System.meaning S.System.stored S.System.knows cs.old cs.new }
{
    let first = cs.value(x)?;
    let second = cs.value(y)?;
    let condition = cs.value(k)?;
    let m = cs.new_variable(Side::Witness, apart_value(first, second, condition))?;
    apart_row(k, x, y, m, cs)
}

impl FpVar {
    /// The steps of the statement that the product of two numbers is a third.
    pub fn mul_equals_steps<F: Field, S: System<F>>(
        self,
        other: FpVar,
        number: FpVar,
        cs: &mut S,
    ) -> Result<(), GadgetFault>
        ensures does { Ran (run F.Field.modulus (mul_equals_script F.Field.modulus self other number)) (S.System.meaning cs.old) result (S.System.meaning cs.new) }
        ensures adds { Adds S.System.meaning S.System.stored S.System.knows cs.old cs.new }
    {
        match (self, other) {
            (FpVar::Constant(a), FpVar::Constant(b)) => constant_is(product::<F>(a, b), number, cs),
            (FpVar::Constant(c), FpVar::Var(v)) | (FpVar::Var(v), FpVar::Constant(c)) => {
                scaled_is(c, v.variable(), number, cs)
            }
            (FpVar::Var(a), FpVar::Var(b)) => product_row(a.variable(), b.variable(), number, cs),
        }
    }

    /// The steps of the statement that the square of a number is another.
    pub fn square_equals_steps<F: Field, S: System<F>>(
        self,
        number: FpVar,
        cs: &mut S,
    ) -> Result<(), GadgetFault>
        ensures does { Ran (run F.Field.modulus (square_equals_script F.Field.modulus self number)) (S.System.meaning cs.old) result (S.System.meaning cs.new) }
        ensures adds { Adds S.System.meaning S.System.stored S.System.knows cs.old cs.new }
    {
        match (self, number) {
            (FpVar::Constant(a), FpVar::Constant(b)) => holding(same::<F>(product::<F>(a, a), b)),
            (FpVar::Constant(a), FpVar::Var(b)) => constant_square_is(a, b.variable(), cs),
            (FpVar::Var(a), _) => product_row(a.variable(), a.variable(), number, cs),
        }
    }

    /// The steps of two numbers being equal wherever a condition is one.
    pub(crate) fn equal<F: Field, S: System<F>>(
        self,
        other: FpVar,
        condition: Boolean,
        cs: &mut S,
    ) -> Result<(), GadgetFault>
        ensures does { Ran (run F.Field.modulus (equal_script F.Field.modulus self other condition)) (S.System.meaning cs.old) result (S.System.meaning cs.new) }
        ensures adds { Adds S.System.meaning S.System.stored S.System.knows cs.old cs.new }
    {
        match (self, other) {
            (FpVar::Constant(a), FpVar::Constant(b)) => {
                condition.enforce_unless_steps(same::<F>(a, b), cs)
            }
            (FpVar::Constant(c), FpVar::Var(v)) | (FpVar::Var(v), FpVar::Constant(c)) => {
                constant_equal_row(condition_variable(condition), c, v.variable(), cs)
            }
            (FpVar::Var(a), FpVar::Var(b)) => {
                equal_row(
                    condition_variable(condition),
                    a.variable(),
                    b.variable(),
                    cs,
                )
            }
        }
    }

    /// The steps of two numbers being different wherever a condition is one.
    pub(crate) fn unequal<F: Field, S: System<F>>(
        self,
        other: FpVar,
        condition: Boolean,
        cs: &mut S,
    ) -> Result<(), GadgetFault>
        ensures does { Ran (run F.Field.modulus (unequal_script F.Field.modulus self other condition)) (S.System.meaning cs.old) result (S.System.meaning cs.new) }
        ensures adds { Adds S.System.meaning S.System.stored S.System.knows cs.old cs.new }
    {
        match (self, other) {
            (FpVar::Constant(a), FpVar::Constant(b)) => {
                condition.enforce_unless_steps(!same::<F>(a, b), cs)
            }
            (FpVar::Constant(a), FpVar::Var(b)) => apart_from(
                condition_variable(condition),
                a,
                b.variable(),
                cs,
            ),
            (FpVar::Var(a), FpVar::Constant(b)) => apart_from(
                condition_variable(condition),
                b,
                a.variable(),
                cs,
            ),
            (FpVar::Var(a), FpVar::Var(b)) => {
                apart_both(
                    condition_variable(condition),
                    a.variable(),
                    b.variable(),
                    cs,
                )
            }
        }
    }
}
