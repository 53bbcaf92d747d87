// What follows, of bits and of numbers alike, from what can be compared: whether two values differ, and the two statements without a condition.
#![tactic(auto)]

ghost use Rattle.std.specs.Prelude.{◌≡◌, ℕ, true};
ghost use Rattle.boolean.specs.declared.bits.Boolean.TheVariants.{Constant as constant};
ghost use Rattle.relations.specs.Meaning.{Ran, Adds, Leaves};
ghost use Rattle.relations.specs.Script.{run, whole};
ghost use Rattle.equality.specs.Inequality.{inequality};

use boolean::{Boolean, EqGadget};
use field::Field;
use relations::{Gadget, GadgetFault, System, call};

// A struct, and not a closure: what a call does is a function of it.
/// The question whether two values differ.
#[derive(Clone, Copy)]
struct Differing<T> {
    a: T,
    b: T,
}

impl<F: Field, S: System<F>, T: EqGadget<F, S>> Gadget<F, S> for Differing<T> {
    type Out = Boolean;

    ghost model = { λ q. inequality F.Field.modulus (T.EqGadget.equality F.Field.modulus q.a q.b) };

    fn steps(&self, cs: &mut S) -> Result<Boolean, GadgetFault> {
        self.a.is_eq_steps(self.b, cs)?.not_steps(cs)
    }
}

/// Whether two values differ: the opposite of whether they are equal. A refusal leaves the system as it was.
pub fn is_neq<F: Field, S: System<F>, T: EqGadget<F, S>>(
    a: T,
    b: T,
    cs: &mut S,
) -> Result<Boolean, GadgetFault>
    ensures does { Ran (whole (run F.Field.modulus (inequality F.Field.modulus (T.EqGadget.equality F.Field.modulus a b)))) (S.System.meaning cs.old) result (S.System.meaning cs.new) }
    ensures adds { Adds S.System.meaning S.System.stored S.System.knows cs.old cs.new }
    ensures leaves { Leaves result (S.System.stored cs.old) (S.System.stored cs.new) }
{
    call(&Differing { a, b }, cs)
}

/// States that two values are equal: the statement under the condition one. A refusal leaves the system as it was.
pub fn enforce_equal<F: Field, S: System<F>, T: EqGadget<F, S>>(
    a: T,
    b: T,
    cs: &mut S,
) -> Result<(), GadgetFault>
    ensures does { Ran (whole (run F.Field.modulus (T.EqGadget.equal F.Field.modulus a b (constant true)))) (S.System.meaning cs.old) result (S.System.meaning cs.new) }
    ensures adds { Adds S.System.meaning S.System.stored S.System.knows cs.old cs.new }
    ensures leaves { Leaves result (S.System.stored cs.old) (S.System.stored cs.new) }
{
    a.conditional_enforce_equal(b, Boolean::Constant(true), cs)
}

/// States that two values differ: the statement under the condition one. A refusal leaves the system as it was.
pub fn enforce_not_equal<F: Field, S: System<F>, T: EqGadget<F, S>>(
    a: T,
    b: T,
    cs: &mut S,
) -> Result<(), GadgetFault>
    ensures does { Ran (whole (run F.Field.modulus (T.EqGadget.unequal F.Field.modulus a b (constant true)))) (S.System.meaning cs.old) result (S.System.meaning cs.new) }
    ensures adds { Adds S.System.meaning S.System.stored S.System.knows cs.old cs.new }
    ensures leaves { Leaves result (S.System.stored cs.old) (S.System.stored cs.new) }
{
    a.conditional_enforce_not_equal(b, Boolean::Constant(true), cs)
}
