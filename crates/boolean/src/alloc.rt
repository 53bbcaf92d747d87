ghost use Rattle.std.specs.Prelude.{ℕ, Option as Maybe};
ghost use Rattle.boolean.specs.declared.mode.AllocationMode.{AllocationMode as Mode};
ghost use Rattle.relations.specs.Meaning.{Ran, Adds, Leaves};
ghost use Rattle.relations.specs.Script.{Script, run, whole};

use crate::mode::AllocationMode;
use field::Field;
use relations::{GadgetFault, System};

/// What can be allocated in a system from a value: as a constant, an input or a witness. The steps are those of the script
/// `allocation`, at the field's prime, and a refusal leaves the system as it was.
pub trait AllocVar<V, F: Field, S: System<F>>: Sized {
    ghost allocation: { ℕ → Mode → Maybe V → Script Self };

    fn new_variable(cs: &mut S, value: Option<V>, mode: AllocationMode) -> Result<Self, GadgetFault>
        ensures does { Ran (whole (run F.Field.modulus (allocation F.Field.modulus mode value))) (S.System.meaning cs.old) result (S.System.meaning cs.new) }
        ensures adds { Adds S.System.meaning S.System.stored S.System.knows cs.old cs.new }
        ensures leaves { Leaves result (S.System.stored cs.old) (S.System.stored cs.new) };
}
