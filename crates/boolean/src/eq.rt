ghost use Rattle.std.specs.Prelude.{ℕ};
ghost use Rattle.boolean.specs.declared.bits.Boolean.{Boolean as Bit};
ghost use Rattle.relations.specs.Meaning.{Ran, Adds, Leaves};
ghost use Rattle.relations.specs.Script.{Script, run, whole};

use crate::bits::Boolean;
use field::Field;
use relations::{GadgetFault, System};

/// What can be compared in a system: a question, whose answer is a bit, and two statements, which hold wherever a condition is one. The
/// steps of each are those of a script, at the field's prime. As a call each is whole or not at all: a refusal leaves the system as it was.
pub trait EqGadget<F: Field, S: System<F>>: Copy {
    // Whether two values are equal.
    ghost equality: { ℕ → Self → Self → Script Bit };

    // Where the condition is one, two values are equal.
    ghost equal: { ℕ → Self → Self → Bit → Script (Unit {0}) };

    // Where the condition is one, two values differ.
    ghost unequal: { ℕ → Self → Self → Bit → Script (Unit {0}) };

    /// The steps of whether two values are equal.
    fn is_eq_steps(self, other: Self, cs: &mut S) -> Result<Boolean, GadgetFault>
        ensures does { Ran (run F.Field.modulus (equality F.Field.modulus self other)) (S.System.meaning cs.old) result (S.System.meaning cs.new) }
        ensures adds { Adds S.System.meaning S.System.stored S.System.knows cs.old cs.new };

    /// The steps of the statement that two values are equal wherever a condition is one.
    fn conditional_enforce_equal_steps(
        self,
        other: Self,
        condition: Boolean,
        cs: &mut S,
    ) -> Result<(), GadgetFault>
        ensures does { Ran (run F.Field.modulus (equal F.Field.modulus self other condition)) (S.System.meaning cs.old) result (S.System.meaning cs.new) }
        ensures adds { Adds S.System.meaning S.System.stored S.System.knows cs.old cs.new };

    /// The steps of the statement that two values differ wherever a condition is one.
    fn conditional_enforce_not_equal_steps(
        self,
        other: Self,
        condition: Boolean,
        cs: &mut S,
    ) -> Result<(), GadgetFault>
        ensures does { Ran (run F.Field.modulus (unequal F.Field.modulus self other condition)) (S.System.meaning cs.old) result (S.System.meaning cs.new) }
        ensures adds { Adds S.System.meaning S.System.stored S.System.knows cs.old cs.new };

    /// Whether two values are equal.
    fn is_eq(self, other: Self, cs: &mut S) -> Result<Boolean, GadgetFault>
        ensures does { Ran (whole (run F.Field.modulus (equality F.Field.modulus self other))) (S.System.meaning cs.old) result (S.System.meaning cs.new) }
        ensures adds { Adds S.System.meaning S.System.stored S.System.knows cs.old cs.new }
        ensures leaves { Leaves result (S.System.stored cs.old) (S.System.stored cs.new) };

    /// States that two values are equal wherever a condition is one.
    fn conditional_enforce_equal(
        self,
        other: Self,
        condition: Boolean,
        cs: &mut S,
    ) -> Result<(), GadgetFault>
        ensures does { Ran (whole (run F.Field.modulus (equal F.Field.modulus self other condition))) (S.System.meaning cs.old) result (S.System.meaning cs.new) }
        ensures adds { Adds S.System.meaning S.System.stored S.System.knows cs.old cs.new }
        ensures leaves { Leaves result (S.System.stored cs.old) (S.System.stored cs.new) };

    /// States that two values differ wherever a condition is one.
    fn conditional_enforce_not_equal(
        self,
        other: Self,
        condition: Boolean,
        cs: &mut S,
    ) -> Result<(), GadgetFault>
        ensures does { Ran (whole (run F.Field.modulus (unequal F.Field.modulus self other condition))) (S.System.meaning cs.old) result (S.System.meaning cs.new) }
        ensures adds { Adds S.System.meaning S.System.stored S.System.knows cs.old cs.new }
        ensures leaves { Leaves result (S.System.stored cs.old) (S.System.stored cs.new) };
}
