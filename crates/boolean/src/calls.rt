ghost use Rattle.std.specs.Prelude.{◌≡◌, ℕ};
ghost use Rattle.relations.specs.Meaning.{Ran, Adds, Leaves};
ghost use Rattle.relations.specs.Script.{Script, run, whole};
ghost use Rattle.boolean.specs.Booleans.{alloc_script, not_script, and_script, or_script, xor_script, is_eq_script, select_script, equal_script, unequal_script, call_script, statement_script};

use crate::alloc::AllocVar;
use crate::bits::{Boolean, BooleanCall, BooleanStatement};
use crate::eq::EqGadget;
use crate::mode::AllocationMode;
use crate::select::CondSelectGadget;
use allocated::Gate;
use field::Field;
use relations::{Gadget, GadgetFault, System, call};

impl<F: Field, S: System<F>> Gadget<F, S> for BooleanCall {
    type Out = Boolean;

    ghost model = { λ g. call_script F.Field.modulus g };

    // A match, as in the definition of a call's script.
    fn steps(&self, cs: &mut S) -> Result<Boolean, GadgetFault> {
        match *self {
            BooleanCall::Allocate(mode, value) => Boolean::alloc_steps(cs, value, mode),
            BooleanCall::Not(a) => a.not_steps(cs),
            BooleanCall::Gated(gate, a, b) => a.gate_steps(gate, b, cs),
            BooleanCall::Equality(a, b) => a.equality(b, cs),
            BooleanCall::Choice(c, a, b) => c.choice(a, b, cs),
        }
    }
}

impl<F: Field, S: System<F>> Gadget<F, S> for BooleanStatement {
    type Out = ();

    ghost model = { λ g. statement_script F.Field.modulus g };

    fn steps(&self, cs: &mut S) -> Result<(), GadgetFault> {
        match *self {
            BooleanStatement::Equal(a, b, condition) => a.equal(b, condition, cs),
            BooleanStatement::Unequal(a, b, condition) => a.unequal(b, condition, cs),
        }
    }
}

impl<F: Field, S: System<F>> AllocVar<bool, F, S> for Boolean {
    ghost allocation = { alloc_script };

    fn new_variable(
        cs: &mut S,
        value: Option<bool>,
        mode: AllocationMode,
    ) -> Result<Boolean, GadgetFault>
        ensures does { Ran (whole (run F.Field.modulus (alloc_script F.Field.modulus mode value))) (S.System.meaning cs.old) result (S.System.meaning cs.new) }
        ensures adds { Adds S.System.meaning S.System.stored S.System.knows cs.old cs.new }
        ensures leaves { Leaves result (S.System.stored cs.old) (S.System.stored cs.new) }
    {
        call(&BooleanCall::Allocate(mode, value), cs)
    }
}

impl<F: Field, S: System<F>> EqGadget<F, S> for Boolean {
    ghost equality = { is_eq_script };

    ghost equal = { equal_script };

    ghost unequal = { unequal_script };

    fn is_eq_steps(self, other: Boolean, cs: &mut S) -> Result<Boolean, GadgetFault>
        ensures does { Ran (run F.Field.modulus (is_eq_script F.Field.modulus self other)) (S.System.meaning cs.old) result (S.System.meaning cs.new) }
        ensures adds { Adds S.System.meaning S.System.stored S.System.knows cs.old cs.new }
    {
        self.equality(other, cs)
    }

    fn conditional_enforce_equal_steps(
        self,
        other: Boolean,
        condition: Boolean,
        cs: &mut S,
    ) -> Result<(), GadgetFault>
        ensures does { Ran (run F.Field.modulus (equal_script F.Field.modulus self other condition)) (S.System.meaning cs.old) result (S.System.meaning cs.new) }
        ensures adds { Adds S.System.meaning S.System.stored S.System.knows cs.old cs.new }
    {
        self.equal(other, condition, cs)
    }

    fn conditional_enforce_not_equal_steps(
        self,
        other: Boolean,
        condition: Boolean,
        cs: &mut S,
    ) -> Result<(), GadgetFault>
        ensures does { Ran (run F.Field.modulus (unequal_script F.Field.modulus self other condition)) (S.System.meaning cs.old) result (S.System.meaning cs.new) }
        ensures adds { Adds S.System.meaning S.System.stored S.System.knows cs.old cs.new }
    {
        self.unequal(other, condition, cs)
    }

    fn is_eq(self, other: Boolean, cs: &mut S) -> Result<Boolean, GadgetFault>
        ensures does { Ran (whole (run F.Field.modulus (is_eq_script F.Field.modulus self other))) (S.System.meaning cs.old) result (S.System.meaning cs.new) }
        ensures adds { Adds S.System.meaning S.System.stored S.System.knows cs.old cs.new }
        ensures leaves { Leaves result (S.System.stored cs.old) (S.System.stored cs.new) }
    {
        call(&BooleanCall::Equality(self, other), cs)
    }

    fn conditional_enforce_equal(
        self,
        other: Boolean,
        condition: Boolean,
        cs: &mut S,
    ) -> Result<(), GadgetFault>
        ensures does { Ran (whole (run F.Field.modulus (equal_script F.Field.modulus self other condition))) (S.System.meaning cs.old) result (S.System.meaning cs.new) }
        ensures adds { Adds S.System.meaning S.System.stored S.System.knows cs.old cs.new }
        ensures leaves { Leaves result (S.System.stored cs.old) (S.System.stored cs.new) }
    {
        call(&BooleanStatement::Equal(self, other, condition), cs)
    }

    fn conditional_enforce_not_equal(
        self,
        other: Boolean,
        condition: Boolean,
        cs: &mut S,
    ) -> Result<(), GadgetFault>
        ensures does { Ran (whole (run F.Field.modulus (unequal_script F.Field.modulus self other condition))) (S.System.meaning cs.old) result (S.System.meaning cs.new) }
        ensures adds { Adds S.System.meaning S.System.stored S.System.knows cs.old cs.new }
        ensures leaves { Leaves result (S.System.stored cs.old) (S.System.stored cs.new) }
    {
        call(&BooleanStatement::Unequal(self, other, condition), cs)
    }
}

impl<F: Field, S: System<F>> CondSelectGadget<F, S> for Boolean {
    ghost choice = { select_script };

    fn conditionally_select_steps(
        condition: Boolean,
        true_value: Boolean,
        false_value: Boolean,
        cs: &mut S,
    ) -> Result<Boolean, GadgetFault>
        ensures does { Ran (run F.Field.modulus (select_script F.Field.modulus condition true_value false_value)) (S.System.meaning cs.old) result (S.System.meaning cs.new) }
        ensures adds { Adds S.System.meaning S.System.stored S.System.knows cs.old cs.new }
    {
        condition.choice(true_value, false_value, cs)
    }

    fn conditionally_select(
        condition: Boolean,
        true_value: Boolean,
        false_value: Boolean,
        cs: &mut S,
    ) -> Result<Boolean, GadgetFault>
        ensures does { Ran (whole (run F.Field.modulus (select_script F.Field.modulus condition true_value false_value))) (S.System.meaning cs.old) result (S.System.meaning cs.new) }
        ensures adds { Adds S.System.meaning S.System.stored S.System.knows cs.old cs.new }
        ensures leaves { Leaves result (S.System.stored cs.old) (S.System.stored cs.new) }
    {
        call(&BooleanCall::Choice(condition, true_value, false_value), cs)
    }
}

impl Boolean {
    /// One less the bit; a refusal leaves the system as it was.
    pub fn not<F: Field, S: System<F>>(self, cs: &mut S) -> Result<Boolean, GadgetFault>
        ensures does { Ran (whole (run F.Field.modulus (not_script F.Field.modulus self))) (S.System.meaning cs.old) result (S.System.meaning cs.new) }
        ensures adds { Adds S.System.meaning S.System.stored S.System.knows cs.old cs.new }
        ensures leaves { Leaves result (S.System.stored cs.old) (S.System.stored cs.new) }
    {
        call(&BooleanCall::Not(self), cs)
    }

    // Three calls in place of one that takes the gate: they stand for the operators of the Rust crate, one each, and `a.and(b, cs)` reads plainer.

    /// Whether both bits are one; a refusal leaves the system as it was.
    pub fn and<F: Field, S: System<F>>(
        self,
        other: Boolean,
        cs: &mut S,
    ) -> Result<Boolean, GadgetFault>
        ensures does { Ran (whole (run F.Field.modulus (and_script F.Field.modulus self other))) (S.System.meaning cs.old) result (S.System.meaning cs.new) }
        ensures adds { Adds S.System.meaning S.System.stored S.System.knows cs.old cs.new }
        ensures leaves { Leaves result (S.System.stored cs.old) (S.System.stored cs.new) }
    {
        call(&BooleanCall::Gated(Gate::And, self, other), cs)
    }

    /// Whether one of the bits is one; a refusal leaves the system as it was.
    pub fn or<F: Field, S: System<F>>(
        self,
        other: Boolean,
        cs: &mut S,
    ) -> Result<Boolean, GadgetFault>
        ensures does { Ran (whole (run F.Field.modulus (or_script F.Field.modulus self other))) (S.System.meaning cs.old) result (S.System.meaning cs.new) }
        ensures adds { Adds S.System.meaning S.System.stored S.System.knows cs.old cs.new }
        ensures leaves { Leaves result (S.System.stored cs.old) (S.System.stored cs.new) }
    {
        call(&BooleanCall::Gated(Gate::Or, self, other), cs)
    }

    /// Whether the bits differ; a refusal leaves the system as it was.
    pub fn xor<F: Field, S: System<F>>(
        self,
        other: Boolean,
        cs: &mut S,
    ) -> Result<Boolean, GadgetFault>
        ensures does { Ran (whole (run F.Field.modulus (xor_script F.Field.modulus self other))) (S.System.meaning cs.old) result (S.System.meaning cs.new) }
        ensures adds { Adds S.System.meaning S.System.stored S.System.knows cs.old cs.new }
        ensures leaves { Leaves result (S.System.stored cs.old) (S.System.stored cs.new) }
    {
        call(&BooleanCall::Gated(Gate::Xor, self, other), cs)
    }
}
