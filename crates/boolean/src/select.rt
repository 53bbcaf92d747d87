ghost use Rattle.std.specs.Prelude.{ℕ};
ghost use Rattle.boolean.specs.declared.bits.Boolean.{Boolean as Bit};
ghost use Rattle.relations.specs.Meaning.{Ran, Adds, Leaves};
ghost use Rattle.relations.specs.Script.{Script, run, whole};

use crate::bits::Boolean;
use field::Field;
use relations::{GadgetFault, System};

/// What can be chosen in a system: one value where a condition is one, and else another. The steps are those of the script `choice`, at the
/// field's prime; as a call the choice is whole or not at all, and a refusal leaves the system as it was.
pub trait CondSelectGadget<F: Field, S: System<F>>: Copy {
    // The first value where the condition is one, else the second.
    ghost choice: { ℕ → Bit → Self → Self → Script Self };

    /// The steps of a choice.
    fn conditionally_select_steps(
        condition: Boolean,
        true_value: Self,
        false_value: Self,
        cs: &mut S,
    ) -> Result<Self, GadgetFault>
        ensures does { Ran (run F.Field.modulus (choice F.Field.modulus condition true_value false_value)) (S.System.meaning cs.old) result (S.System.meaning cs.new) }
        ensures adds { Adds S.System.meaning S.System.stored S.System.knows cs.old cs.new };

    /// The first value where the condition is one, else the second.
    fn conditionally_select(
        condition: Boolean,
        true_value: Self,
        false_value: Self,
        cs: &mut S,
    ) -> Result<Self, GadgetFault>
        ensures does { Ran (whole (run F.Field.modulus (choice F.Field.modulus condition true_value false_value))) (S.System.meaning cs.old) result (S.System.meaning cs.new) }
        ensures adds { Adds S.System.meaning S.System.stored S.System.knows cs.old cs.new }
        ensures leaves { Leaves result (S.System.stored cs.old) (S.System.stored cs.new) };
}
