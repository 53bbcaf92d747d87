ghost use Rattle.std.specs.Prelude.{◌≡◌, ℕ};
ghost use Rattle.relations.specs.Meaning.{Ran, Adds, Leaves};
ghost use Rattle.relations.specs.Script.{Script, run, whole};
ghost use Rattle.gates.specs.declared.wide.Wide.TheVariants.{And as all, Or as some};
ghost use Rattle.gates.specs.Kary.{kary_script, nand_script, enforce_nand_script};
ghost use Rattle.gates.specs.Walk.{walk_script};
ghost use Rattle.gates.specs.Calls.{call_script, statement_script};

use crate::kary::{KaryCall, KaryStatement};
use crate::members::Members;
use crate::walk::enforce_smaller_or_equal_than_le_steps;
use crate::wide::Wide;
use boolean::Boolean;
use field::Field;
use relations::{Gadget, GadgetFault, System, call};

impl<'a, F: Field, S: System<F>> Gadget<F, S> for KaryCall<'a> {
    type Out = Boolean;

    ghost model = { λ g. call_script F.Field.modulus g };

    fn steps(&self, cs: &mut S) -> Result<Boolean, GadgetFault> {
        match *self {
            KaryCall::Joined(gate, members) => members.kary_steps(gate, cs),
            KaryCall::Nand(members) => members.nand_steps(cs),
        }
    }
}

impl<'a, F: Field, S: System<F>> Gadget<F, S> for KaryStatement<'a> {
    type Out = ();

    ghost model = { λ g. statement_script F.Field.modulus g };

    fn steps(&self, cs: &mut S) -> Result<(), GadgetFault> {
        match *self {
            KaryStatement::Nand(members) => members.enforce_nand_steps(cs),
            KaryStatement::AtMost(bits, element) => {
                enforce_smaller_or_equal_than_le_steps(bits, element, cs)
            }
        }
    }
}

impl<'a> Members<'a> {
    /// Whether all members are one; a refusal leaves the system as it was.
    pub fn kary_and<F: Field, S: System<F>>(&self, cs: &mut S) -> Result<Boolean, GadgetFault>
        ensures does { Ran (whole (run F.Field.modulus (kary_script all F.Field.modulus self.now.bits.now))) (S.System.meaning cs.old) result (S.System.meaning cs.new) }
        ensures adds { Adds S.System.meaning S.System.stored S.System.knows cs.old cs.new }
        ensures leaves { Leaves result (S.System.stored cs.old) (S.System.stored cs.new) }
    {
        call(&KaryCall::Joined(Wide::And, *self), cs)
    }

    /// Whether some members are one; a refusal leaves the system as it was.
    pub fn kary_or<F: Field, S: System<F>>(&self, cs: &mut S) -> Result<Boolean, GadgetFault>
        ensures does { Ran (whole (run F.Field.modulus (kary_script some F.Field.modulus self.now.bits.now))) (S.System.meaning cs.old) result (S.System.meaning cs.new) }
        ensures adds { Adds S.System.meaning S.System.stored S.System.knows cs.old cs.new }
        ensures leaves { Leaves result (S.System.stored cs.old) (S.System.stored cs.new) }
    {
        call(&KaryCall::Joined(Wide::Or, *self), cs)
    }

    /// Whether not all members are one; a refusal leaves the system as it was.
    pub fn kary_nand<F: Field, S: System<F>>(&self, cs: &mut S) -> Result<Boolean, GadgetFault>
        ensures does { Ran (whole (run F.Field.modulus (nand_script F.Field.modulus self.now.bits.now))) (S.System.meaning cs.old) result (S.System.meaning cs.new) }
        ensures adds { Adds S.System.meaning S.System.stored S.System.knows cs.old cs.new }
        ensures leaves { Leaves result (S.System.stored cs.old) (S.System.stored cs.new) }
    {
        call(&KaryCall::Nand(*self), cs)
    }

    /// States that not all members are one; a refusal leaves the system as it was.
    pub fn enforce_kary_nand<F: Field, S: System<F>>(&self, cs: &mut S) -> Result<(), GadgetFault>
        ensures does { Ran (whole (run F.Field.modulus (enforce_nand_script F.Field.modulus self.now.bits.now))) (S.System.meaning cs.old) result (S.System.meaning cs.new) }
        ensures adds { Adds S.System.meaning S.System.stored S.System.knows cs.old cs.new }
        ensures leaves { Leaves result (S.System.stored cs.old) (S.System.stored cs.new) }
    {
        call(&KaryStatement::Nand(*self), cs)
    }
}

/// States that some bits, the lowest first, spell at most a number; a refusal leaves the system as it was.
pub fn enforce_smaller_or_equal_than_le<F: Field, S: System<F>>(
    bits: &[Boolean],
    element: u64,
    cs: &mut S,
) -> Result<(), GadgetFault>
    ensures does { Ran (whole (run F.Field.modulus (walk_script F.Field.modulus bits.now element))) (S.System.meaning cs.old) result (S.System.meaning cs.new) }
    ensures adds { Adds S.System.meaning S.System.stored S.System.knows cs.old cs.new }
    ensures leaves { Leaves result (S.System.stored cs.old) (S.System.stored cs.new) }
{
    call(&KaryStatement::AtMost(bits, element), cs)
}
