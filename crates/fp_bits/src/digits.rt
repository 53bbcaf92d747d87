ghost use Rattle.std.specs.Prelude.{◌≡◌, ℕ, ◌<◌, ◌≤◌, List, [], ◌∷◌};
ghost use Rattle.std.specs.Option.{option_map};
ghost use Rattle.relations.specs.declared.term.Side.TheVariants.{Witness as witness};
ghost use Rattle.relations.specs.Meaning.{Ran, Adds};
ghost use Rattle.relations.specs.Script.{Script, run, allocate, over};
ghost use Rattle.allocated.specs.Gates.{bit_number, booleanity};
ghost use Rattle.fp_bits.specs.Digits.{constant_bits as constant_bits_of};
ghost use Rattle.fp_bits.specs.Bits.{digit_of as digit_script, new_digits as new_digits_script};
ghost use Rattle.fp_bits.specs.Listed.{bits_listed};

use crate::bits::{Bits, MOST_BITS};
use boolean::{AllocatedBool, Boolean};
use field::Field;
use relations::{GadgetFault, Side, System, Variable};

/// The digits of a constant, as bits.
pub(crate) fn constant_bits(constant: u32, count: usize) -> Bits
    requires { count ≤ MOST_BITS }
    ensures { bits_listed result ≡ constant_bits_of count constant }
{
    let mut list = [Boolean::Constant(false); MOST_BITS];
    let mut rest = constant;
    for place in 0..count {
        list[place] = Boolean::Constant(rest % 2 == 1);
        rest /= 2;
    }
    Bits { list, count }
}

/// A digit of a value, where that is there.
fn digit<F: Field>(value: Option<F>, place: u32) -> Option<bool>
    requires { place < MOST_BITS }
    ensures { bit_number result ≡ digit_script place (option_map F.Field.number value ∷ []) }
{
    let number = u64::from(value?.to_number());
    Some((number >> place) & 1 == 1)
}

/// A new bit with a digit of a variable's value.
fn new_digit<F: Field, S: System<F>>(
    variable: Variable,
    place: u32,
    cs: &mut S,
) -> Result<AllocatedBool, GadgetFault>
    requires { place < MOST_BITS }
    ensures does { Ran (run F.Field.modulus (allocate witness (variable ∷ []) (digit_script place) (booleanity F.Field.modulus))) (S.System.meaning cs.old) result (S.System.meaning cs.new) }
    ensures adds { Adds S.System.meaning S.System.stored S.System.knows cs.old cs.new }
{
    let value = cs.value(variable)?;
    AllocatedBool::variable_steps(cs, Side::Witness, digit(value, place))
}

/// So many new bits with the digits of a variable's value, the lowest first.
pub(crate) fn new_digits<F: Field, S: System<F>>(
    variable: Variable,
    count: usize,
    cs: &mut S,
) -> Result<Bits, GadgetFault>
    requires { count ≤ MOST_BITS }
    ensures does { Ran (run F.Field.modulus (new_digits_script F.Field.modulus variable 0 count)) (S.System.meaning cs.old) (over bits_listed result) (S.System.meaning cs.new) }
    ensures adds { Adds S.System.meaning S.System.stored S.System.knows cs.old cs.new }
{
    let mut list = [Boolean::Constant(false); MOST_BITS];
    for place in 0..count {
        list[place] = Boolean::Var(new_digit(variable, place as u32, cs)?);
    }
    Ok(Bits { list, count })
}
