ghost use Rattle.std.specs.Prelude.{ℕ, List};
ghost use Rattle.boolean.specs.declared.bits.Boolean.{Boolean as Bit};
ghost use Rattle.relations.specs.Meaning.{Ran, Adds};
ghost use Rattle.relations.specs.Script.{Script, run, over};
ghost use Rattle.fp_bits.specs.Bits.{to_non_unique_bits_script, to_bits_script};
ghost use Rattle.fp_bits.specs.Listed.{bits_listed};

use crate::bits::Bits;
use crate::split::{folded_bits, split, split_below_prime};
use field::Field;
use fp_var::FpVar;
use relations::{GadgetFault, System};

/// What has bits in a system, the lowest first. The steps of each are those of a script, at the field's prime.
pub trait ToBitsGadget<F: Field, S: System<F>>: Copy {
    // The bits that spell a value.
    ghost bits_le: { ℕ → Self → Script (List Bit) };

    // Bits that spell a value modulo the prime.
    ghost non_unique_bits_le: { ℕ → Self → Script (List Bit) };

    /// The steps of the bits that spell a value.
    fn to_bits_le_steps(self, cs: &mut S) -> Result<Bits, GadgetFault>
        ensures does { Ran (run F.Field.modulus (bits_le F.Field.modulus self)) (S.System.meaning cs.old) (over bits_listed result) (S.System.meaning cs.new) }
        ensures adds { Adds S.System.meaning S.System.stored S.System.knows cs.old cs.new };

    /// The steps of bits that spell a value modulo the prime: there may be more than one such list of bits.
    fn to_non_unique_bits_le_steps(self, cs: &mut S) -> Result<Bits, GadgetFault>
        ensures does { Ran (run F.Field.modulus (non_unique_bits_le F.Field.modulus self)) (S.System.meaning cs.old) (over bits_listed result) (S.System.meaning cs.new) }
        ensures adds { Adds S.System.meaning S.System.stored S.System.knows cs.old cs.new };
}

impl<F: Field, S: System<F>> ToBitsGadget<F, S> for FpVar {
    ghost bits_le = { to_bits_script };

    ghost non_unique_bits_le = { to_non_unique_bits_script };

    fn to_bits_le_steps(self, cs: &mut S) -> Result<Bits, GadgetFault>
        ensures does { Ran (run F.Field.modulus (to_bits_script F.Field.modulus self)) (S.System.meaning cs.old) (over bits_listed result) (S.System.meaning cs.new) }
        ensures adds { Adds S.System.meaning S.System.stored S.System.knows cs.old cs.new }
    {
        match self {
            FpVar::Constant(c) => Ok(folded_bits::<F>(c)),
            FpVar::Var(a) => split_below_prime(a.variable(), cs),
        }
    }

    fn to_non_unique_bits_le_steps(self, cs: &mut S) -> Result<Bits, GadgetFault>
        ensures does { Ran (run F.Field.modulus (to_non_unique_bits_script F.Field.modulus self)) (S.System.meaning cs.old) (over bits_listed result) (S.System.meaning cs.new) }
        ensures adds { Adds S.System.meaning S.System.stored S.System.knows cs.old cs.new }
    {
        match self {
            FpVar::Constant(c) => Ok(folded_bits::<F>(c)),
            FpVar::Var(a) => split(a.variable(), cs),
        }
    }
}
