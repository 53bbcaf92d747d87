ghost use Rattle.std.specs.Prelude.{◌≡◌, ℕ, ◌-◌, ◌%◌, ◌≤◌, [], ◌∷◌, ◌++◌, length};
ghost use Rattle.relations.specs.Meaning.{Ran, Adds};
ghost use Rattle.relations.specs.Script.{Script, run, row, answer, then, over};
ghost use Rattle.relations.specs.Terms.{times as times_of};
ghost use Rattle.field.specs.Modulus.{bit_length as prime_bits_of};
ghost use Rattle.gates.specs.Walk.{walk_script};
ghost use Rattle.fp_bits.specs.Digits.{constant_bits as constant_bits_of, first_weight};
ghost use Rattle.fp_bits.specs.Bits.{weighted, split_script};
ghost use Rattle.fp_bits.specs.Listed.{bits_listed};

use crate::bits::{Bits, MOST_BITS};
use crate::digits::{constant_bits, new_digits};
use crate::spelled::less_than_prime;
use boolean::Boolean;
use field::{Field, bits as prime_bits};
use relations::{GadgetFault, System, Variable, minus_one, times};

/// The row 0 * 0 = what the variables among some bits come to by their weights, less a variable.
fn sum_row<F: Field, S: System<F>>(
    bits: &[Boolean],
    variable: Variable,
    cs: &mut S,
) -> Result<(), GadgetFault>
    requires { length bits.now ≤ MOST_BITS }
    ensures does { Ran (run F.Field.modulus (row [] [] (weighted F.Field.modulus (first_weight F.Field.modulus) bits.now ++ (times_of (F.Field.modulus - 1) variable ∷ [])) (answer tt))) (S.System.meaning cs.old) result (S.System.meaning cs.new) }
    ensures adds { Adds S.System.meaning S.System.stored S.System.knows cs.old cs.new }
{
    let mut terms = [times(0, Variable::Zero); MOST_BITS + 1];
    let mut count = 0;
    let mut next = F::one();
    for bit in bits {
        let weight = next.to_number();
        next = next.double();
        let Boolean::Var(a) = *bit else {
            continue;
        };
        terms[count] = times(weight, a.variable());
        count += 1;
    }
    terms[count] = times(minus_one::<F>(), variable);
    cs.enforce_constraint(&[], &[], &terms[..count + 1])?;
    Ok(())
}

/// The steps of as many new bits as the prime has, with the row that they come to a variable.
pub(crate) fn split<F: Field, S: System<F>>(
    variable: Variable,
    cs: &mut S,
) -> Result<Bits, GadgetFault>
    ensures does { Ran (run F.Field.modulus (split_script F.Field.modulus variable)) (S.System.meaning cs.old) (over bits_listed result) (S.System.meaning cs.new) }
    ensures adds { Adds S.System.meaning S.System.stored S.System.knows cs.old cs.new }
{
    let bits = new_digits(variable, prime_bits::<F>() as usize, cs)?;
    sum_row(bits.as_slice(), variable, cs)?;
    Ok(bits)
}

/// The same with the bits held below the prime.
pub(crate) fn split_below_prime<F: Field, S: System<F>>(
    variable: Variable,
    cs: &mut S,
) -> Result<Bits, GadgetFault>
    ensures does { Ran (run F.Field.modulus (then (split_script F.Field.modulus variable) (λ bs. then (walk_script F.Field.modulus bs (F.Field.modulus - 1)) (λ u. answer bs)))) (S.System.meaning cs.old) (over bits_listed result) (S.System.meaning cs.new) }
    ensures adds { Adds S.System.meaning S.System.stored S.System.knows cs.old cs.new }
{
    let bits = split(variable, cs)?;
    less_than_prime(bits.as_slice(), cs)?;
    Ok(bits)
}

/// As many bits of a constant, modulo the prime, as the prime has.
pub(crate) fn folded_bits<F: Field>(constant: u32) -> Bits
    ensures { bits_listed result ≡ constant_bits_of (prime_bits_of F.Field.modulus) (constant % F.Field.modulus) }
{
    let number = F::from_number(constant).to_number();
    constant_bits(number, prime_bits::<F>() as usize)
}
