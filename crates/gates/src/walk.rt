ghost use Rattle.std.specs.Prelude.{◌≡◌, ℕ, ◌<◌, ◌≤◌, [], drop, take, true, length};
ghost use Rattle.relations.specs.Meaning.{Ran, Adds};
ghost use Rattle.relations.specs.Script.{Script, run};
ghost use Rattle.boolean.specs.declared.bits.Boolean.TheVariants.{Constant as constant};
ghost use Rattle.gates.specs.Walk.{bit_of, bits_up_to, bit_length as bit_length_of, place, above_script, closed_script, fall_script, descent, walk_script};

use crate::members::{MOST_MEMBERS, Members};
use crate::sum::chain_from;
use crate::wide::Wide;
use boolean::{Boolean, Gate};
use field::Field;
use relations::{GadgetFault, System};

/// A bit of a number.
fn bit_of(number: u64, place: u32) -> bool
    requires { place < 64 }
    ensures { result ≡ bit_of number place }
{
    (number >> place) % 2 == 1
}

/// How many bits a number has, of the lowest `most`.
fn bits_up_to(number: u64, most: u32) -> u32
    requires { most ≤ 64 }
    ensures counts { result ≡ bits_up_to number most }
    ensures few { result ≤ most }
{
    for place in (0..most).rev() {
        if bit_of(number, place) {
            return place + 1;
        }
    }
    0
}

/// How many bits a number has: none where it is zero.
pub fn bit_length(number: u64) -> u32
    ensures { result ≡ bit_length_of number }
{
    bits_up_to(number, 64)
}

/// The bit at a place; past the end there is the constant 0.
fn place(bits: &[Boolean], i: usize) -> Boolean
    ensures { result ≡ place bits.now i }
{
    bits.get(i).copied().unwrap_or(Boolean::Constant(false))
}

/// The steps of the bits from `top` on being 0.
fn none_above<F: Field, S: System<F>>(
    bits: &[Boolean],
    top: usize,
    cs: &mut S,
) -> Result<(), GadgetFault>
    ensures does { Ran (run F.Field.modulus (above_script F.Field.modulus (drop top bits.now))) (S.System.meaning cs.old) result (S.System.meaning cs.new) }
    ensures adds { Adds S.System.meaning S.System.stored S.System.knows cs.old cs.new }
{
    if bits.len() <= top {
        return Ok(());
    }
    chain_from(Gate::Or, Boolean::Constant(false), &bits[top..], cs)?.enforce_zero_steps(cs)
}

/// The steps that close a run of so many bits: whether all are one, and what closed the run before, which comes last.
fn close<F: Field, S: System<F>>(
    bits: &mut [Boolean],
    count: usize,
    last: Boolean,
    cs: &mut S,
) -> Result<Boolean, GadgetFault>
    requires { (count < length bits.old) × (length bits.old ≤ MOST_MEMBERS) }
    ensures does { Ran (run F.Field.modulus (closed_script F.Field.modulus (take count bits.old) last)) (S.System.meaning cs.old) result (S.System.meaning cs.new) }
    ensures adds { Adds S.System.meaning S.System.stored S.System.knows cs.old cs.new }
{
    if count == 0 {
        return Ok(last);
    }
    bits[count] = last;
    Members {
        bits: &bits[..count + 1],
    }
    .kary_steps(Wide::And, cs)
}

/// The steps at a zero of the bound: the run of so many bits is closed, and the bit is 0 where all before it was one.
fn fall<F: Field, S: System<F>>(
    bits: &mut [Boolean],
    count: usize,
    last: Boolean,
    bit: Boolean,
    cs: &mut S,
) -> Result<Boolean, GadgetFault>
    requires { (count < length bits.old) × (length bits.old ≤ MOST_MEMBERS) }
    ensures does { Ran (run F.Field.modulus (fall_script F.Field.modulus (take count bits.old) last bit)) (S.System.meaning cs.old) result (S.System.meaning cs.new) }
    ensures adds { Adds S.System.meaning S.System.stored S.System.knows cs.old cs.new }
{
    let last = close(bits, count, last, cs)?;
    Members { bits: &[last, bit] }.enforce_nand_steps(cs)?;
    Ok(last)
}

/// The steps of the walk down from the bound's top bit: a run of its ones is gathered, and a zero closes it.
fn descend<F: Field, S: System<F>>(
    bits: &[Boolean],
    element: u64,
    top: u32,
    cs: &mut S,
) -> Result<(), GadgetFault>
    requires { top ≤ 64 }
    ensures does { Ran (run F.Field.modulus (descent F.Field.modulus element top bits.now (constant true) [])) (S.System.meaning cs.old) result (S.System.meaning cs.new) }
    ensures adds { Adds S.System.meaning S.System.stored S.System.knows cs.old cs.new }
{
    let mut last = Boolean::Constant(true);
    let mut gathered = [last; MOST_MEMBERS];
    let mut count = 0;
    for i in (0..top).rev() {
        let bit = place(bits, i as usize);
        if bit_of(element, i) {
            gathered[count] = bit;
            count += 1;
        } else {
            last = fall(&mut gathered, count, last, bit, cs)?;
            count = 0;
        }
    }
    Ok(())
}

/// The steps of the statement that some bits, the lowest first, spell at most a number.
pub fn enforce_smaller_or_equal_than_le_steps<F: Field, S: System<F>>(
    bits: &[Boolean],
    element: u64,
    cs: &mut S,
) -> Result<(), GadgetFault>
    ensures does { Ran (run F.Field.modulus (walk_script F.Field.modulus bits.now element)) (S.System.meaning cs.old) result (S.System.meaning cs.new) }
    ensures adds { Adds S.System.meaning S.System.stored S.System.knows cs.old cs.new }
{
    let top = bits_up_to(element, 64);
    none_above(bits, top as usize, cs)?;
    descend(bits, element, top, cs)
}
