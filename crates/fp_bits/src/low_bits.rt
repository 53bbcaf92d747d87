ghost use Rattle.std.specs.Prelude.{◌≡◌, ℕ, ◌^◌, ◌≤◌, nat_lt};
ghost use Rattle.relations.specs.Meaning.{Meaning, Ran, Adds};
ghost use Rattle.relations.specs.Script.{Script, run, over};
ghost use Rattle.fp_var.specs.declared.numbers.FpVar.TheVariants.{Constant as constant_number, Var as variable_number};
ghost use Rattle.fp_bits.specs.Bits.{nothing_left as nothing_left_script, top_bits_zero_script};
ghost use Rattle.fp_bits.specs.Listed.{bits_listed};

use crate::bits::{BitCount, Bits, MOST_BITS};
use crate::digits::{constant_bits, new_digits};
use crate::spelled::spelled;
use boolean::{Boolean, EqGadget};
use field::Field;
use fp::AllocatedFp;
use fp_var::FpVar;
use relations::{GadgetFault, System};

/// Whether a number has at most so many bits.
fn fits(number: u32, count: usize) -> bool
    requires { count ≤ MOST_BITS }
    ensures { result ≡ nat_lt number (2 ^ count) }
{
    u128::from(number) < 1u128 << count
}

/// The lowest bits of a constant, modulo the prime, and the rest, which is 0: a constant that has more bits is refused.
fn folded_low_bits<F: Field>(constant: u32, count: usize) -> Result<(Bits, FpVar), GadgetFault>
    requires { count ≤ MOST_BITS }
    ensures { (m : Meaning) → run F.Field.modulus (top_bits_zero_script F.Field.modulus count (constant_number constant)) m ≡ (over (λ r. (bits_listed r.0, r.1)) result, m) }
{
    let number = F::from_number(constant).to_number();
    if !fits(number, count) {
        return Err(GadgetFault::Unsatisfiable);
    }
    Ok((constant_bits(number, count), FpVar::Constant(0)))
}

/// The steps of the statement that what is left of a number is 0.
fn nothing_left<F: Field, S: System<F>>(rest: FpVar, cs: &mut S) -> Result<(), GadgetFault>
    ensures does { Ran (run F.Field.modulus (nothing_left_script F.Field.modulus rest)) (S.System.meaning cs.old) result (S.System.meaning cs.new) }
    ensures adds { Adds S.System.meaning S.System.stored S.System.knows cs.old cs.new }
{
    let always = Boolean::Constant(true);
    FpVar::Constant(0).conditional_enforce_equal_steps(rest, always, cs)
}

/// The steps of the lowest bits of a variable, and of the rest, which is 0.
fn split_low_bits<F: Field, S: System<F>>(
    number: AllocatedFp,
    count: usize,
    cs: &mut S,
) -> Result<(Bits, FpVar), GadgetFault>
    requires { count ≤ MOST_BITS }
    ensures does { Ran (run F.Field.modulus (top_bits_zero_script F.Field.modulus count (variable_number number))) (S.System.meaning cs.old) (over (λ r. (bits_listed r.0, r.1)) result) (S.System.meaning cs.new) }
    ensures adds { Adds S.System.meaning S.System.stored S.System.knows cs.old cs.new }
{
    let bits = new_digits(number.variable(), count, cs)?;
    let low = spelled(bits.as_slice(), cs)?;
    let rest = FpVar::Var(number).sub_steps(low, cs)?;
    nothing_left(rest, cs)?;
    Ok((bits, rest))
}

// A function, here and for comparisons, and no method: another crate's type takes methods by a trait alone, and there is one kind of number.
/// The steps of the lowest bits of a number whose other bits are 0, and of the rest, which is 0: constants fold, and one that has more bits
/// is refused.
pub fn to_bits_le_with_top_bits_zero_steps<F: Field, S: System<F>>(
    number: FpVar,
    size: BitCount,
    cs: &mut S,
) -> Result<(Bits, FpVar), GadgetFault>
    ensures does { Ran (run F.Field.modulus (top_bits_zero_script F.Field.modulus size.count number)) (S.System.meaning cs.old) (over (λ r. (bits_listed r.0, r.1)) result) (S.System.meaning cs.new) }
    ensures adds { Adds S.System.meaning S.System.stored S.System.knows cs.old cs.new }
{
    match number {
        FpVar::Constant(c) => folded_low_bits::<F>(c, size.count),
        FpVar::Var(a) => split_low_bits(a, size.count, cs),
    }
}
