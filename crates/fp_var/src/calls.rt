ghost use Rattle.std.specs.Prelude.{◌≡◌, ℕ};
ghost use Rattle.relations.specs.Meaning.{Ran, Adds, Leaves};
ghost use Rattle.relations.specs.Script.{Script, run, whole};
ghost use Rattle.fp_var.specs.Numbers.{alloc_script, add_script, sub_script, mul_script, negate_script, double_script, inverse_script, of_bit_script, is_eq_script, is_neq_script, mul_equals_script, square_equals_script, equal_script, unequal_script, select_script, call_script, question_script, statement_script};

use crate::numbers::{FpCall, FpQuestion, FpStatement, FpVar};
use boolean::{AllocVar, AllocationMode, Boolean, CondSelectGadget, EqGadget};
use field::Field;
use relations::{Gadget, GadgetFault, System, call};

impl<F: Field, S: System<F>> Gadget<F, S> for FpCall {
    type Out = FpVar;

    ghost model = { λ g. call_script F.Field.modulus g };

    // Matches, here and below, as in the definition of a call's script.
    fn steps(&self, cs: &mut S) -> Result<FpVar, GadgetFault> {
        match *self {
            FpCall::Allocate(mode, value) => FpVar::alloc_steps(cs, value, mode),
            FpCall::Add(a, b) => a.add_steps(b, cs),
            FpCall::Sub(a, b) => a.sub_steps(b, cs),
            FpCall::Mul(a, b) => a.mul_steps(b, cs),
            FpCall::Negate(a) => a.negate_steps(cs),
            FpCall::Double(a) => a.double_steps(cs),
            FpCall::Inverse(a) => a.inverse_steps(cs),
            FpCall::Select(condition, a, b) => FpVar::choice(condition, a, b, cs),
            FpCall::FromBit(bit) => FpVar::from_bit_steps(bit, cs),
        }
    }
}

impl<F: Field, S: System<F>> Gadget<F, S> for FpQuestion {
    type Out = Boolean;

    ghost model = { λ g. question_script F.Field.modulus g };

    fn steps(&self, cs: &mut S) -> Result<Boolean, GadgetFault> {
        match *self {
            FpQuestion::IsEq(a, b) => a.equality(b, cs),
            FpQuestion::IsNeq(a, b) => a.is_neq_steps(b, cs),
        }
    }
}

impl<F: Field, S: System<F>> Gadget<F, S> for FpStatement {
    type Out = ();

    ghost model = { λ g. statement_script F.Field.modulus g };

    fn steps(&self, cs: &mut S) -> Result<(), GadgetFault> {
        match *self {
            FpStatement::MulEquals(a, b, c) => a.mul_equals_steps(b, c, cs),
            FpStatement::SquareEquals(a, b) => a.square_equals_steps(b, cs),
            FpStatement::Equal(a, b, condition) => a.equal(b, condition, cs),
            FpStatement::Unequal(a, b, condition) => a.unequal(b, condition, cs),
        }
    }
}

impl<F: Field, S: System<F>> AllocVar<u32, F, S> for FpVar {
    ghost allocation = { alloc_script };

    fn new_variable(
        cs: &mut S,
        value: Option<u32>,
        mode: AllocationMode,
    ) -> Result<FpVar, GadgetFault>
        ensures does { Ran (whole (run F.Field.modulus (alloc_script F.Field.modulus mode value))) (S.System.meaning cs.old) result (S.System.meaning cs.new) }
        ensures adds { Adds S.System.meaning S.System.stored S.System.knows cs.old cs.new }
        ensures leaves { Leaves result (S.System.stored cs.old) (S.System.stored cs.new) }
    {
        call(&FpCall::Allocate(mode, value), cs)
    }
}

impl<F: Field, S: System<F>> EqGadget<F, S> for FpVar {
    ghost equality = { is_eq_script };

    ghost equal = { equal_script };

    ghost unequal = { unequal_script };

    fn is_eq_steps(self, other: FpVar, cs: &mut S) -> Result<Boolean, GadgetFault>
        ensures does { Ran (run F.Field.modulus (is_eq_script F.Field.modulus self other)) (S.System.meaning cs.old) result (S.System.meaning cs.new) }
        ensures adds { Adds S.System.meaning S.System.stored S.System.knows cs.old cs.new }
    {
        self.equality(other, cs)
    }

    fn conditional_enforce_equal_steps(
        self,
        other: FpVar,
        condition: Boolean,
        cs: &mut S,
    ) -> Result<(), GadgetFault>
        ensures does { Ran (run F.Field.modulus (equal_script F.Field.modulus self other condition)) (S.System.meaning cs.old) result (S.System.meaning cs.new) }
        ensures adds { Adds S.System.meaning S.System.stored S.System.knows cs.old cs.new }
    {
        self.equal(other, condition, cs)
    }

    fn conditional_enforce_not_equal_steps(
        self,
        other: FpVar,
        condition: Boolean,
        cs: &mut S,
    ) -> Result<(), GadgetFault>
        ensures does { Ran (run F.Field.modulus (unequal_script F.Field.modulus self other condition)) (S.System.meaning cs.old) result (S.System.meaning cs.new) }
        ensures adds { Adds S.System.meaning S.System.stored S.System.knows cs.old cs.new }
    {
        self.unequal(other, condition, cs)
    }

    fn is_eq(self, other: FpVar, cs: &mut S) -> Result<Boolean, GadgetFault>
        ensures does { Ran (whole (run F.Field.modulus (is_eq_script F.Field.modulus self other))) (S.System.meaning cs.old) result (S.System.meaning cs.new) }
        ensures adds { Adds S.System.meaning S.System.stored S.System.knows cs.old cs.new }
        ensures leaves { Leaves result (S.System.stored cs.old) (S.System.stored cs.new) }
    {
        call(&FpQuestion::IsEq(self, other), cs)
    }

    fn conditional_enforce_equal(
        self,
        other: FpVar,
        condition: Boolean,
        cs: &mut S,
    ) -> Result<(), GadgetFault>
        ensures does { Ran (whole (run F.Field.modulus (equal_script F.Field.modulus self other condition))) (S.System.meaning cs.old) result (S.System.meaning cs.new) }
        ensures adds { Adds S.System.meaning S.System.stored S.System.knows cs.old cs.new }
        ensures leaves { Leaves result (S.System.stored cs.old) (S.System.stored cs.new) }
    {
        call(&FpStatement::Equal(self, other, condition), cs)
    }

    fn conditional_enforce_not_equal(
        self,
        other: FpVar,
        condition: Boolean,
        cs: &mut S,
    ) -> Result<(), GadgetFault>
        ensures does { Ran (whole (run F.Field.modulus (unequal_script F.Field.modulus self other condition))) (S.System.meaning cs.old) result (S.System.meaning cs.new) }
        ensures adds { Adds S.System.meaning S.System.stored S.System.knows cs.old cs.new }
        ensures leaves { Leaves result (S.System.stored cs.old) (S.System.stored cs.new) }
    {
        call(&FpStatement::Unequal(self, other, condition), cs)
    }
}

impl<F: Field, S: System<F>> CondSelectGadget<F, S> for FpVar {
    ghost choice = { select_script };

    fn conditionally_select_steps(
        condition: Boolean,
        true_value: FpVar,
        false_value: FpVar,
        cs: &mut S,
    ) -> Result<FpVar, GadgetFault>
        ensures does { Ran (run F.Field.modulus (select_script F.Field.modulus condition true_value false_value)) (S.System.meaning cs.old) result (S.System.meaning cs.new) }
        ensures adds { Adds S.System.meaning S.System.stored S.System.knows cs.old cs.new }
    {
        FpVar::choice(condition, true_value, false_value, cs)
    }

    fn conditionally_select(
        condition: Boolean,
        true_value: FpVar,
        false_value: FpVar,
        cs: &mut S,
    ) -> Result<FpVar, GadgetFault>
        ensures does { Ran (whole (run F.Field.modulus (select_script F.Field.modulus condition true_value false_value))) (S.System.meaning cs.old) result (S.System.meaning cs.new) }
        ensures adds { Adds S.System.meaning S.System.stored S.System.knows cs.old cs.new }
        ensures leaves { Leaves result (S.System.stored cs.old) (S.System.stored cs.new) }
    {
        call(&FpCall::Select(condition, true_value, false_value), cs)
    }
}

impl FpVar {
    /// The sum of two numbers; a refusal leaves the system as it was.
    pub fn add<F: Field, S: System<F>>(self, other: FpVar, cs: &mut S) -> Result<FpVar, GadgetFault>
        ensures does { Ran (whole (run F.Field.modulus (add_script F.Field.modulus self other))) (S.System.meaning cs.old) result (S.System.meaning cs.new) }
        ensures adds { Adds S.System.meaning S.System.stored S.System.knows cs.old cs.new }
        ensures leaves { Leaves result (S.System.stored cs.old) (S.System.stored cs.new) }
    {
        call(&FpCall::Add(self, other), cs)
    }

    /// The difference of two numbers; a refusal leaves the system as it was.
    pub fn sub<F: Field, S: System<F>>(self, other: FpVar, cs: &mut S) -> Result<FpVar, GadgetFault>
        ensures does { Ran (whole (run F.Field.modulus (sub_script F.Field.modulus self other))) (S.System.meaning cs.old) result (S.System.meaning cs.new) }
        ensures adds { Adds S.System.meaning S.System.stored S.System.knows cs.old cs.new }
        ensures leaves { Leaves result (S.System.stored cs.old) (S.System.stored cs.new) }
    {
        call(&FpCall::Sub(self, other), cs)
    }

    /// The product of two numbers; a refusal leaves the system as it was.
    pub fn mul<F: Field, S: System<F>>(self, other: FpVar, cs: &mut S) -> Result<FpVar, GadgetFault>
        ensures does { Ran (whole (run F.Field.modulus (mul_script F.Field.modulus self other))) (S.System.meaning cs.old) result (S.System.meaning cs.new) }
        ensures adds { Adds S.System.meaning S.System.stored S.System.knows cs.old cs.new }
        ensures leaves { Leaves result (S.System.stored cs.old) (S.System.stored cs.new) }
    {
        call(&FpCall::Mul(self, other), cs)
    }

    /// Minus a number; a refusal leaves the system as it was.
    pub fn negate<F: Field, S: System<F>>(self, cs: &mut S) -> Result<FpVar, GadgetFault>
        ensures does { Ran (whole (run F.Field.modulus (negate_script F.Field.modulus self))) (S.System.meaning cs.old) result (S.System.meaning cs.new) }
        ensures adds { Adds S.System.meaning S.System.stored S.System.knows cs.old cs.new }
        ensures leaves { Leaves result (S.System.stored cs.old) (S.System.stored cs.new) }
    {
        call(&FpCall::Negate(self), cs)
    }

    /// Twice a number; a refusal leaves the system as it was.
    pub fn double<F: Field, S: System<F>>(self, cs: &mut S) -> Result<FpVar, GadgetFault>
        ensures does { Ran (whole (run F.Field.modulus (double_script F.Field.modulus self))) (S.System.meaning cs.old) result (S.System.meaning cs.new) }
        ensures adds { Adds S.System.meaning S.System.stored S.System.knows cs.old cs.new }
        ensures leaves { Leaves result (S.System.stored cs.old) (S.System.stored cs.new) }
    {
        call(&FpCall::Double(self), cs)
    }

    /// The inverse of a number; the constant 0 is refused, and a refusal leaves the system as it was.
    pub fn inverse<F: Field, S: System<F>>(self, cs: &mut S) -> Result<FpVar, GadgetFault>
        ensures does { Ran (whole (run F.Field.modulus (inverse_script F.Field.modulus self))) (S.System.meaning cs.old) result (S.System.meaning cs.new) }
        ensures adds { Adds S.System.meaning S.System.stored S.System.knows cs.old cs.new }
        ensures leaves { Leaves result (S.System.stored cs.old) (S.System.stored cs.new) }
    {
        call(&FpCall::Inverse(self), cs)
    }

    /// A bit as a number; a refusal leaves the system as it was.
    pub fn from_bit<F: Field, S: System<F>>(bit: Boolean, cs: &mut S) -> Result<FpVar, GadgetFault>
        ensures does { Ran (whole (run F.Field.modulus (of_bit_script bit))) (S.System.meaning cs.old) result (S.System.meaning cs.new) }
        ensures adds { Adds S.System.meaning S.System.stored S.System.knows cs.old cs.new }
        ensures leaves { Leaves result (S.System.stored cs.old) (S.System.stored cs.new) }
    {
        call(&FpCall::FromBit(bit), cs)
    }

    /// Whether two numbers are not equal; a refusal leaves the system as it was.
    pub fn is_neq<F: Field, S: System<F>>(
        self,
        other: FpVar,
        cs: &mut S,
    ) -> Result<Boolean, GadgetFault>
        ensures does { Ran (whole (run F.Field.modulus (is_neq_script F.Field.modulus self other))) (S.System.meaning cs.old) result (S.System.meaning cs.new) }
        ensures adds { Adds S.System.meaning S.System.stored S.System.knows cs.old cs.new }
        ensures leaves { Leaves result (S.System.stored cs.old) (S.System.stored cs.new) }
    {
        call(&FpQuestion::IsNeq(self, other), cs)
    }

    /// States that the product of two numbers is a third; a refusal leaves the system as it was.
    pub fn mul_equals<F: Field, S: System<F>>(
        self,
        other: FpVar,
        number: FpVar,
        cs: &mut S,
    ) -> Result<(), GadgetFault>
        ensures does { Ran (whole (run F.Field.modulus (mul_equals_script F.Field.modulus self other number))) (S.System.meaning cs.old) result (S.System.meaning cs.new) }
        ensures adds { Adds S.System.meaning S.System.stored S.System.knows cs.old cs.new }
        ensures leaves { Leaves result (S.System.stored cs.old) (S.System.stored cs.new) }
    {
        call(&FpStatement::MulEquals(self, other, number), cs)
    }

    /// States that the square of a number is another; a refusal leaves the system as it was.
    pub fn square_equals<F: Field, S: System<F>>(
        self,
        number: FpVar,
        cs: &mut S,
    ) -> Result<(), GadgetFault>
        ensures does { Ran (whole (run F.Field.modulus (square_equals_script F.Field.modulus self number))) (S.System.meaning cs.old) result (S.System.meaning cs.new) }
        ensures adds { Adds S.System.meaning S.System.stored S.System.knows cs.old cs.new }
        ensures leaves { Leaves result (S.System.stored cs.old) (S.System.stored cs.new) }
    {
        call(&FpStatement::SquareEquals(self, number), cs)
    }
}
