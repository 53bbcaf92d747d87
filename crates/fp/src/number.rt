ghost use Rattle.std.specs.Prelude.{◌≡◌, ℕ};
ghost use Rattle.std.specs.Option.{option_map};
ghost use Rattle.relations.specs.Meaning.{Ran, Adds};
ghost use Rattle.relations.specs.Script.{Script, run};
ghost use Rattle.allocated.specs.Gates.{bit_number};
ghost use Rattle.fp.specs.Equality.{where_both, differing, multiplier, loose_difference, new_multiplier, differ_script, is_eq_script, is_neq_script};

use allocated::{AllocatedBool, LooseBit};
use field::Field;
use relations::{GadgetFault, Side, System, Variable, less};

/// A variable that stands for a number.
#[derive(Clone, Copy)]
pub struct AllocatedFp {
    variable: Variable,
}

/// Whether two numbers differ, where both are there.
fn differing_value<F: Field>(x: Option<F>, y: Option<F>) -> Option<bool>
    ensures { bit_number result ≡ where_both differing (option_map F.Field.number x) (option_map F.Field.number y) }
{
    Some(x?.to_number() != y?.to_number())
}

/// The number that multiplies the difference of two numbers to 1, where both are there; 1 where they are equal.
fn multiplier_value<F: Field>(x: Option<F>, y: Option<F>) -> Option<F>
    ensures { option_map F.Field.number result ≡ where_both (multiplier F.Field.modulus) (option_map F.Field.number x) (option_map F.Field.number y) }
{
    Some(x?.sub(y?).inverse().unwrap_or(F::one()))
}

impl AllocatedFp {
    /// The number of a variable, which may be any: no row forces a number.
    pub fn named(variable: Variable) -> AllocatedFp
        ensures { result.variable ≡ variable }
    {
        AllocatedFp { variable }
    }

    /// The variable's name.
    pub fn variable(self) -> Variable
        ensures { result ≡ self.variable }
    {
        self.variable
    }

    /// A loose bit whose value says whether two numbers differ.
    fn loose_difference<F: Field, S: System<F>>(
        self,
        other: AllocatedFp,
        cs: &mut S,
    ) -> Result<LooseBit, GadgetFault>
        ensures does { Ran (run F.Field.modulus (loose_difference self.variable other.variable)) (S.System.meaning cs.old) result (S.System.meaning cs.new) }
        ensures adds { Adds S.System.meaning S.System.stored S.System.knows cs.old cs.new }
    {
        let x = cs.value(self.variable)?;
        let y = cs.value(other.variable)?;
        LooseBit::new_witness_without_booleanity_check(cs, differing_value(x, y))
    }

    /// The multiplier of the difference of two numbers.
    fn multiplier<F: Field, S: System<F>>(
        self,
        other: AllocatedFp,
        cs: &mut S,
    ) -> Result<Variable, GadgetFault>
        ensures does { Ran (run F.Field.modulus (new_multiplier F.Field.modulus self.variable other.variable)) (S.System.meaning cs.old) result (S.System.meaning cs.new) }
        ensures adds { Adds S.System.meaning S.System.stored S.System.knows cs.old cs.new }
    {
        let x = cs.value(self.variable)?;
        let y = cs.value(other.variable)?;
        Ok(cs.new_variable(Side::Witness, multiplier_value(x, y))?)
    }

    /// Whether two numbers differ: a loose bit and the multiplier of their difference, and the bit moved into the rows that make it say so.
    pub fn differ_steps<F: Field, S: System<F>>(
        self,
        other: AllocatedFp,
        cs: &mut S,
    ) -> Result<AllocatedBool, GadgetFault>
        ensures does { Ran (run F.Field.modulus (differ_script F.Field.modulus self.variable other.variable)) (S.System.meaning cs.old) result (S.System.meaning cs.new) }
        ensures adds { Adds S.System.meaning S.System.stored S.System.knows cs.old cs.new }
    {
        let differs = self.loose_difference(other, cs)?;
        let multiplier = self.multiplier(other, cs);
        let (differs, multiplier) = differs.beside(multiplier)?;
        differs.enforce_difference(cs, &less::<F>(self.variable, other.variable), multiplier)
    }

    /// Whether two numbers are equal.
    pub fn is_eq_steps<F: Field, S: System<F>>(
        self,
        other: AllocatedFp,
        cs: &mut S,
    ) -> Result<AllocatedBool, GadgetFault>
        ensures does { Ran (run F.Field.modulus (is_eq_script F.Field.modulus self.variable other.variable)) (S.System.meaning cs.old) result (S.System.meaning cs.new) }
        ensures adds { Adds S.System.meaning S.System.stored S.System.knows cs.old cs.new }
    {
        self.differ_steps(other, cs)?.not_steps(cs)
    }

    /// Whether two numbers are not equal.
    pub fn is_neq_steps<F: Field, S: System<F>>(
        self,
        other: AllocatedFp,
        cs: &mut S,
    ) -> Result<AllocatedBool, GadgetFault>
        ensures does { Ran (run F.Field.modulus (is_neq_script F.Field.modulus self.variable other.variable)) (S.System.meaning cs.old) result (S.System.meaning cs.new) }
        ensures adds { Adds S.System.meaning S.System.stored S.System.knows cs.old cs.new }
    {
        self.is_eq_steps(other, cs)?.not_steps(cs)
    }
}
