ghost use Rattle.std.specs.Prelude.{◌≡◌, ℕ};
ghost use Rattle.relations.specs.declared.term.Variable.TheVariants.{One};
ghost use Rattle.relations.specs.Meaning.{Ran, Adds};
ghost use Rattle.relations.specs.Script.{Script, run, row, answer, then};
ghost use Rattle.relations.specs.Terms.{just as just_of};
ghost use Rattle.boolean.specs.Booleans.{bit_terms};
ghost use Rattle.fp_cmp.specs.Compare.{at_most_half as at_most_half_script, lowest_of_double as lowest_of_double_script, smaller as smaller_script, compared as compared_script, is_cmp_script, ordered as ordered_constants, forced as forced_script, enforce_cmp_script};

use boolean::Boolean;
use field::{Field, half};
use fp_bits::ToBitsGadget;
use fp_var::{FpVar, holding};
use gates::enforce_smaller_or_equal_than_le_steps;
use relations::{GadgetFault, System, Variable, just};
use std::cmp::Ordering;

/// The steps of the statement that a number is at most half of the prime.
fn at_most_half<F: Field, S: System<F>>(number: FpVar, cs: &mut S) -> Result<(), GadgetFault>
    ensures does { Ran (run F.Field.modulus (at_most_half_script F.Field.modulus number)) (S.System.meaning cs.old) result (S.System.meaning cs.new) }
    ensures adds { Adds S.System.meaning S.System.stored S.System.knows cs.old cs.new }
{
    let bits = number.to_non_unique_bits_le_steps(cs)?;
    enforce_smaller_or_equal_than_le_steps(bits.as_slice(), u64::from(half::<F>()), cs)
}

/// The steps of the lowest bit of twice the difference x - y.
fn lowest_of_double<F: Field, S: System<F>>(
    x: FpVar,
    y: FpVar,
    cs: &mut S,
) -> Result<Boolean, GadgetFault>
    ensures does { Ran (run F.Field.modulus (lowest_of_double_script F.Field.modulus x y)) (S.System.meaning cs.old) result (S.System.meaning cs.new) }
    ensures adds { Adds S.System.meaning S.System.stored S.System.knows cs.old cs.new }
{
    let difference = x.sub_steps(y, cs)?;
    let double = difference.double_steps(cs)?;
    let bits = double.to_bits_le_steps(cs)?;
    Ok(bits.lowest())
}

/// The steps of whether x is smaller than y, or, where equality counts, that y is not smaller than x; both are at most half of the prime.
fn smaller<F: Field, S: System<F>>(
    x: FpVar,
    y: FpVar,
    or_equal: bool,
    cs: &mut S,
) -> Result<Boolean, GadgetFault>
    ensures does { Ran (run F.Field.modulus (smaller_script F.Field.modulus or_equal x y)) (S.System.meaning cs.old) result (S.System.meaning cs.new) }
    ensures adds { Adds S.System.meaning S.System.stored S.System.knows cs.old cs.new }
{
    if or_equal {
        lowest_of_double(y, x, cs)?.not_steps(cs)
    } else {
        lowest_of_double(x, y, cs)
    }
}

/// The steps of the same, with both held to half of the prime, x first.
fn compared<F: Field, S: System<F>>(
    x: FpVar,
    y: FpVar,
    or_equal: bool,
    cs: &mut S,
) -> Result<Boolean, GadgetFault>
    ensures does { Ran (run F.Field.modulus (compared_script F.Field.modulus or_equal x y)) (S.System.meaning cs.old) result (S.System.meaning cs.new) }
    ensures adds { Adds S.System.meaning S.System.stored S.System.knows cs.old cs.new }
{
    at_most_half(x, cs)?;
    at_most_half(y, cs)?;
    smaller(x, y, or_equal, cs)
}

/// Whether two constants, modulo the prime, are at most half of it, and x is smaller than y or, where equality counts, not greater.
fn ordered<F: Field>(x: u32, y: u32, or_equal: bool) -> bool
    ensures { result ≡ ordered_constants F.Field.modulus or_equal x y }
{
    let (x, y) = (F::from_number(x).to_number(), F::from_number(y).to_number());
    let half = half::<F>();
    let in_order = if or_equal { x <= y } else { x < y };
    x <= half && y <= half && in_order
}

/// The row b * 1 = 1, constants too.
fn one_row<F: Field, S: System<F>>(bit: Boolean, cs: &mut S) -> Result<(), GadgetFault>
    ensures does { Ran (run F.Field.modulus (row (bit_terms bit) (just_of One) (just_of One) (answer tt))) (S.System.meaning cs.old) result (S.System.meaning cs.new) }
    ensures adds { Adds S.System.meaning S.System.stored S.System.knows cs.old cs.new }
{
    let one = just(Variable::One);
    match bit {
        Boolean::Constant(false) => cs.enforce_constraint(&[], &one, &one)?,
        Boolean::Constant(true) => cs.enforce_constraint(&one, &one, &one)?,
        Boolean::Var(a) => cs.enforce_constraint(&just(a.variable()), &one, &one)?,
    }
    Ok(())
}

/// The steps of a comparison that is true.
fn forced_by_row<F: Field, S: System<F>>(
    x: FpVar,
    y: FpVar,
    or_equal: bool,
    cs: &mut S,
) -> Result<(), GadgetFault>
    ensures does { Ran (run F.Field.modulus (then (compared_script F.Field.modulus or_equal x y) (λ b. row (bit_terms b) (just_of One) (just_of One) (answer tt)))) (S.System.meaning cs.old) result (S.System.meaning cs.new) }
    ensures adds { Adds S.System.meaning S.System.stored S.System.knows cs.old cs.new }
{
    let holds = compared(x, y, or_equal, cs)?;
    one_row(holds, cs)
}

/// The steps of a comparison that is true: constants alone are refused where it is not.
fn forced<F: Field, S: System<F>>(
    x: FpVar,
    y: FpVar,
    or_equal: bool,
    cs: &mut S,
) -> Result<(), GadgetFault>
    ensures does { Ran (run F.Field.modulus (forced_script F.Field.modulus or_equal x y)) (S.System.meaning cs.old) result (S.System.meaning cs.new) }
    ensures adds { Adds S.System.meaning S.System.stored S.System.knows cs.old cs.new }
{
    match (x, y) {
        (FpVar::Constant(a), FpVar::Constant(b)) => holding(ordered::<F>(a, b, or_equal)),
        (FpVar::Constant(_), FpVar::Var(_)) | (FpVar::Var(_), _) => {
            forced_by_row(x, y, or_equal, cs)
        }
    }
}

/// The steps of whether one number is less or greater than another, or, where equality is also checked, equal to it. Both are held to
/// half of the prime. The order `Equal` is refused.
pub fn is_cmp_steps<F: Field, S: System<F>>(
    number: FpVar,
    other: FpVar,
    ordering: Ordering,
    should_also_check_equality: bool,
    cs: &mut S,
) -> Result<Boolean, GadgetFault>
    ensures does { Ran (run F.Field.modulus (is_cmp_script F.Field.modulus ordering should_also_check_equality number other)) (S.System.meaning cs.old) result (S.System.meaning cs.new) }
    ensures adds { Adds S.System.meaning S.System.stored S.System.knows cs.old cs.new }
{
    match ordering {
        Ordering::Less => compared(number, other, should_also_check_equality, cs),
        Ordering::Equal => Err(GadgetFault::Unsatisfiable),
        Ordering::Greater => compared(other, number, should_also_check_equality, cs),
    }
}

/// The steps of the statement that one number is less or greater than another, or, where equality is also checked, equal to it. Both are
/// held to half of the prime. The order `Equal` is refused, and so are two constants that break the statement.
pub fn enforce_cmp_steps<F: Field, S: System<F>>(
    number: FpVar,
    other: FpVar,
    ordering: Ordering,
    should_also_check_equality: bool,
    cs: &mut S,
) -> Result<(), GadgetFault>
    ensures does { Ran (run F.Field.modulus (enforce_cmp_script F.Field.modulus ordering should_also_check_equality number other)) (S.System.meaning cs.old) result (S.System.meaning cs.new) }
    ensures adds { Adds S.System.meaning S.System.stored S.System.knows cs.old cs.new }
{
    match ordering {
        Ordering::Less => forced(number, other, should_also_check_equality, cs),
        Ordering::Equal => Err(GadgetFault::Unsatisfiable),
        Ordering::Greater => forced(other, number, should_also_check_equality, cs),
    }
}
