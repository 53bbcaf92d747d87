ghost use Rattle.std.specs.Prelude.{◌≡◌, ℕ, []};
ghost use Rattle.relations.specs.Meaning.{Ran, Adds};
ghost use Rattle.relations.specs.Script.{Script, run, row, answer, then};
ghost use Rattle.allocated.specs.Gates.{differ};
ghost use Rattle.boolean.specs.Booleans.{is_eq_script, equal_script, unequal_script, zero_script, select_script, not_script, gated_script, on_constants, under, bit_terms};

use crate::bits::Boolean;
use allocated::Gate;
use field::Field;
use relations::{GadgetFault, System, Term, Variable, just, less, one_less, times};

impl Boolean {
    /// The steps of the statement that the bit is 0.
    pub fn enforce_zero_steps<F: Field, S: System<F>>(self, cs: &mut S) -> Result<(), GadgetFault>
        ensures does { Ran (run F.Field.modulus (zero_script self)) (S.System.meaning cs.old) result (S.System.meaning cs.new) }
        ensures adds { Adds S.System.meaning S.System.stored S.System.knows cs.old cs.new }
    {
        match self {
            Boolean::Constant(true) => Err(GadgetFault::Unsatisfiable),
            Boolean::Constant(false) => Ok(()),
            Boolean::Var(a) => {
                cs.enforce_constraint(&just(a.variable()), &just(Variable::One), &[])?;
                Ok(())
            }
        }
    }

    /// The steps of a statement on constants alone wherever this bit is one: where the statement is broken the bit is 0.
    pub fn enforce_unless_steps<F: Field, S: System<F>>(
        self,
        holds: bool,
        cs: &mut S,
    ) -> Result<(), GadgetFault>
        ensures does { Ran (run F.Field.modulus (on_constants holds self)) (S.System.meaning cs.old) result (S.System.meaning cs.new) }
        ensures adds { Adds S.System.meaning S.System.stored S.System.knows cs.old cs.new }
    {
        match (holds, self) {
            (true, _) => Ok(()),
            (false, Boolean::Constant(true)) => Err(GadgetFault::Unsatisfiable),
            (false, Boolean::Constant(false)) => Ok(()),
            (false, Boolean::Var(c)) => {
                cs.enforce_constraint(&just(Variable::One), &just(c.variable()), &[])?;
                Ok(())
            }
        }
    }

    /// The steps of a sum being 0 wherever this bit is one.
    fn makes_zero<F: Field, S: System<F>>(self, sum: &[Term], cs: &mut S) -> Result<(), GadgetFault>
        ensures does { Ran (run F.Field.modulus (under self (row sum.now (bit_terms self) [] (answer tt)))) (S.System.meaning cs.old) result (S.System.meaning cs.new) }
        ensures adds { Adds S.System.meaning S.System.stored S.System.knows cs.old cs.new }
    {
        let condition = match self {
            Boolean::Constant(false) => return Ok(()),
            Boolean::Constant(true) => Variable::One,
            Boolean::Var(c) => c.variable(),
        };
        cs.enforce_constraint(sum, &just(condition), &[])?;
        Ok(())
    }

    /// The steps of a sum being 1 wherever this bit is one.
    fn makes_one<F: Field, S: System<F>>(self, sum: &[Term], cs: &mut S) -> Result<(), GadgetFault>
        ensures does { Ran (run F.Field.modulus (under self (row sum.now (bit_terms self) (bit_terms self) (answer tt)))) (S.System.meaning cs.old) result (S.System.meaning cs.new) }
        ensures adds { Adds S.System.meaning S.System.stored S.System.knows cs.old cs.new }
    {
        let condition = match self {
            Boolean::Constant(false) => return Ok(()),
            Boolean::Constant(true) => Variable::One,
            Boolean::Var(c) => c.variable(),
        };
        cs.enforce_constraint(sum, &just(condition), &just(condition))?;
        Ok(())
    }

    /// The steps of whether two bits are equal.
    pub(crate) fn equality<F: Field, S: System<F>>(
        self,
        other: Boolean,
        cs: &mut S,
    ) -> Result<Boolean, GadgetFault>
        ensures does { Ran (run F.Field.modulus (is_eq_script F.Field.modulus self other)) (S.System.meaning cs.old) result (S.System.meaning cs.new) }
        ensures adds { Adds S.System.meaning S.System.stored S.System.knows cs.old cs.new }
    {
        self.gate_steps(Gate::Xor, other, cs)?.not_steps(cs)
    }

    /// The steps of two bits being equal wherever a condition is one.
    pub(crate) fn equal<F: Field, S: System<F>>(
        self,
        other: Boolean,
        condition: Boolean,
        cs: &mut S,
    ) -> Result<(), GadgetFault>
        ensures does { Ran (run F.Field.modulus (equal_script F.Field.modulus self other condition)) (S.System.meaning cs.old) result (S.System.meaning cs.new) }
        ensures adds { Adds S.System.meaning S.System.stored S.System.knows cs.old cs.new }
    {
        match (self, other) {
            (Boolean::Constant(a), Boolean::Constant(b)) => {
                condition.enforce_unless_steps(a == b, cs)
            }
            (Boolean::Constant(true), Boolean::Var(v))
            | (Boolean::Var(v), Boolean::Constant(true)) => {
                condition.makes_zero(&one_less::<F>(v.variable()), cs)
            }
            (Boolean::Constant(false), Boolean::Var(v))
            | (Boolean::Var(v), Boolean::Constant(false)) => {
                condition.makes_zero(&just(v.variable()), cs)
            }
            (Boolean::Var(a), Boolean::Var(b)) => {
                condition.makes_zero(&less::<F>(b.variable(), a.variable()), cs)
            }
        }
    }

    /// The steps of two bits being different wherever a condition is one.
    pub(crate) fn unequal<F: Field, S: System<F>>(
        self,
        other: Boolean,
        condition: Boolean,
        cs: &mut S,
    ) -> Result<(), GadgetFault>
        ensures does { Ran (run F.Field.modulus (unequal_script F.Field.modulus self other condition)) (S.System.meaning cs.old) result (S.System.meaning cs.new) }
        ensures adds { Adds S.System.meaning S.System.stored S.System.knows cs.old cs.new }
    {
        match (self, other) {
            (Boolean::Constant(a), Boolean::Constant(b)) => {
                condition.enforce_unless_steps(a != b, cs)
            }
            (Boolean::Constant(true), Boolean::Var(v))
            | (Boolean::Var(v), Boolean::Constant(true)) => {
                condition.makes_one(&[times(1, Variable::One), times(1, v.variable())], cs)
            }
            (Boolean::Constant(false), Boolean::Var(v))
            | (Boolean::Var(v), Boolean::Constant(false)) => {
                condition.makes_one(&just(v.variable()), cs)
            }
            (Boolean::Var(a), Boolean::Var(b)) => {
                condition.makes_one(&[times(1, b.variable()), times(1, a.variable())], cs)
            }
        }
    }

    /// The steps of a gate on the opposite of this bit and another.
    fn not_gate_steps<F: Field, S: System<F>>(
        self,
        gate: Gate,
        other: Boolean,
        cs: &mut S,
    ) -> Result<Boolean, GadgetFault>
        ensures does { Ran (run F.Field.modulus (then (not_script F.Field.modulus self) (λ t. gated_script gate F.Field.modulus t other))) (S.System.meaning cs.old) result (S.System.meaning cs.new) }
        ensures adds { Adds S.System.meaning S.System.stored S.System.knows cs.old cs.new }
    {
        self.not_steps(cs)?.gate_steps(gate, other, cs)
    }

    /// The steps of a choice: one bit where this one is one, and else another.
    pub(crate) fn choice<F: Field, S: System<F>>(
        self,
        a: Boolean,
        b: Boolean,
        cs: &mut S,
    ) -> Result<Boolean, GadgetFault>
        ensures does { Ran (run F.Field.modulus (select_script F.Field.modulus self a b)) (S.System.meaning cs.old) result (S.System.meaning cs.new) }
        ensures adds { Adds S.System.meaning S.System.stored S.System.knows cs.old cs.new }
    {
        match (self, a, b) {
            (Boolean::Constant(true), _, _) => Ok(a),
            (Boolean::Constant(false), _, _) => Ok(b),
            (Boolean::Var(_), _, Boolean::Constant(false)) => self.gate_steps(Gate::And, a, cs),
            // Two arms alike, since the script goes by the same cases.
            (Boolean::Var(_), Boolean::Constant(false), Boolean::Constant(true)) => {
                self.not_gate_steps(Gate::And, b, cs)
            }
            (Boolean::Var(_), Boolean::Constant(false), Boolean::Var(_)) => {
                self.not_gate_steps(Gate::And, b, cs)
            }
            (Boolean::Var(_), Boolean::Constant(true), _) => self.gate_steps(Gate::Or, b, cs),
            (Boolean::Var(_), Boolean::Var(_), Boolean::Constant(true)) => {
                self.not_gate_steps(Gate::Or, a, cs)
            }
            (Boolean::Var(c), Boolean::Var(x), Boolean::Var(y)) => {
                c.choice_steps(x, y, cs).map(Boolean::Var)
            }
        }
    }
}
