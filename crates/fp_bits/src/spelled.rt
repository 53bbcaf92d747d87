ghost use Rattle.std.specs.Prelude.{◌≡◌, ℕ, ◌-◌, ◌≤◌, cond, length};
ghost use Rattle.relations.specs.Meaning.{Ran, Adds};
ghost use Rattle.relations.specs.Script.{Script, run, then};
ghost use Rattle.fp_var.specs.Numbers.{copied, scaled as scaled_script};
ghost use Rattle.gates.specs.Kary.{all_constant as all_constant_of, told};
ghost use Rattle.gates.specs.Walk.{walk_script};
ghost use Rattle.fp_bits.specs.Digits.{constants_weight as constants_weight_of, first_weight};
ghost use Rattle.fp_bits.specs.Bits.{gathered as gathered_script, below_prime as below_prime_script, le_bits_script};
ghost use Rattle.fp_bits.specs.Listed.{bits_listed};

use crate::bits::{Bits, MOST_BITS};
use boolean::Boolean;
use field::{Field, bits as prime_bits};
use fp::AllocatedFp;
use fp_var::{FpVar, scaled};
use gates::enforce_smaller_or_equal_than_le_steps;
use relations::{GadgetFault, System, Variable, just, times};

/// Whether no bit is a variable.
fn all_constant(bits: &[Boolean]) -> bool
    ensures { result ≡ all_constant_of bits.now }
{
    for bit in bits {
        if let Boolean::Var(_) = *bit {
            return false;
        }
    }
    true
}

/// A weight where the bit is the constant 1, else 0.
fn counted<F: Field>(bit: Boolean, weight: F) -> F
    ensures { F.Field.number result ≡ cond (told bit) (F.Field.number weight) 0 }
{
    match bit {
        Boolean::Constant(true) => weight,
        Boolean::Constant(false) | Boolean::Var(_) => F::zero(),
    }
}

/// What the constants among some bits come to modulo the prime.
fn constants_weight<F: Field>(bits: &[Boolean]) -> u32
    ensures { result ≡ constants_weight_of F.Field.modulus (first_weight F.Field.modulus) bits.now }
{
    let mut sum = F::zero();
    let mut weight = F::one();
    for bit in bits {
        sum = sum.add(counted(*bit, weight));
        weight = weight.double();
    }
    sum.to_number()
}

/// A bit's variable as a combination, times its weight.
fn weighed_bit<F: Field, S: System<F>>(
    weight: u32,
    variable: Variable,
    cs: &mut S,
) -> Result<Variable, GadgetFault>
    ensures does { Ran (run F.Field.modulus (then (copied variable) (λ x. scaled_script F.Field.modulus weight x))) (S.System.meaning cs.old) result (S.System.meaning cs.new) }
    ensures adds { Adds S.System.meaning S.System.stored S.System.knows cs.old cs.new }
{
    let copy = cs.new_lc(&just(variable))?;
    scaled(weight, copy, cs)
}

/// The steps of the sum of the weighed bits, and of what the constants come to unless that is 0.
fn gathered<F: Field, S: System<F>>(bits: &[Boolean], cs: &mut S) -> Result<FpVar, GadgetFault>
    requires { length bits.now ≤ MOST_BITS }
    ensures does { Ran (run F.Field.modulus (gathered_script F.Field.modulus bits.now)) (S.System.meaning cs.old) result (S.System.meaning cs.new) }
    ensures adds { Adds S.System.meaning S.System.stored S.System.knows cs.old cs.new }
{
    let mut terms = [times(0, Variable::Zero); MOST_BITS];
    let mut count = 0;
    let mut next = F::one();
    for bit in bits {
        let weight = next.to_number();
        next = next.double();
        let Boolean::Var(a) = *bit else {
            continue;
        };
        terms[count] = times(1, weighed_bit(weight, a.variable(), cs)?);
        count += 1;
    }
    let sum = cs.new_lc(&terms[..count])?;
    let constants = FpVar::Constant(constants_weight::<F>(bits));
    FpVar::Var(AllocatedFp::named(sum)).add_steps(constants, cs)
}

/// The steps of the statement that some bits spell less than the prime.
pub(crate) fn less_than_prime<F: Field, S: System<F>>(
    bits: &[Boolean],
    cs: &mut S,
) -> Result<(), GadgetFault>
    ensures does { Ran (run F.Field.modulus (walk_script F.Field.modulus bits.now (F.Field.modulus - 1))) (S.System.meaning cs.old) result (S.System.meaning cs.new) }
    ensures adds { Adds S.System.meaning S.System.stored S.System.knows cs.old cs.new }
{
    let most = F::characteristic() - 1;
    enforce_smaller_or_equal_than_le_steps(bits, u64::from(most), cs)
}

/// The same of bits that are as many as the prime has; fewer are not held to it.
fn below_prime<F: Field, S: System<F>>(bits: &[Boolean], cs: &mut S) -> Result<(), GadgetFault>
    ensures does { Ran (run F.Field.modulus (below_prime_script F.Field.modulus bits.now)) (S.System.meaning cs.old) result (S.System.meaning cs.new) }
    ensures adds { Adds S.System.meaning S.System.stored S.System.knows cs.old cs.new }
{
    if bits.len() < prime_bits::<F>() as usize {
        return Ok(());
    }
    less_than_prime(bits, cs)
}

/// The steps of the number that at most `MOST_BITS` bits spell, the lowest first.
pub(crate) fn spelled<F: Field, S: System<F>>(
    bits: &[Boolean],
    cs: &mut S,
) -> Result<FpVar, GadgetFault>
    requires { length bits.now ≤ MOST_BITS }
    ensures does { Ran (run F.Field.modulus (le_bits_script F.Field.modulus bits.now)) (S.System.meaning cs.old) result (S.System.meaning cs.new) }
    ensures adds { Adds S.System.meaning S.System.stored S.System.knows cs.old cs.new }
{
    if all_constant(bits) {
        return Ok(FpVar::Constant(constants_weight::<F>(bits)));
    }
    let sum = gathered(bits, cs)?;
    below_prime(bits, cs)?;
    Ok(sum)
}

/// The steps of the number that some bits spell, the lowest first: constants fold.
pub fn le_bits_to_fp_steps<F: Field, S: System<F>>(
    bits: &Bits,
    cs: &mut S,
) -> Result<FpVar, GadgetFault>
    ensures does { Ran (run F.Field.modulus (le_bits_script F.Field.modulus (bits_listed bits.now))) (S.System.meaning cs.old) result (S.System.meaning cs.new) }
    ensures adds { Adds S.System.meaning S.System.stored S.System.knows cs.old cs.new }
{
    spelled(bits.as_slice(), cs)
}
