ghost use Rattle.std.specs.Prelude.{◌≡◌, ℕ};
ghost use Rattle.relations.specs.Meaning.{Ran, Adds};
ghost use Rattle.relations.specs.Script.{Script, run};
ghost use Rattle.boolean.specs.Booleans.{alloc_script, not_script, gated_script, folded_script};

use crate::bits::Boolean;
use crate::mode::AllocationMode;
use allocated::{AllocatedBool, Gate};
use field::Field;
use relations::{GadgetFault, Side, System};

impl Boolean {
    /// The steps of an allocation: a constant asks nothing of the system.
    pub fn alloc_steps<F: Field, S: System<F>>(
        cs: &mut S,
        value: Option<bool>,
        mode: AllocationMode,
    ) -> Result<Boolean, GadgetFault>
        ensures does { Ran (run F.Field.modulus (alloc_script F.Field.modulus mode value)) (S.System.meaning cs.old) result (S.System.meaning cs.new) }
        ensures adds { Adds S.System.meaning S.System.stored S.System.knows cs.old cs.new }
    {
        let side = match mode {
            AllocationMode::Constant => return value
                .map(Boolean::Constant)
                .ok_or(GadgetFault::NoValue),
            AllocationMode::Input => Side::Input,
            AllocationMode::Witness => Side::Witness,
        };
        AllocatedBool::variable_steps(cs, side, value).map(Boolean::Var)
    }

    // Matches, here and below, and no table of functions: the scripts go by the same cases, and a contract can say that of data.

    /// The steps of `not`.
    pub fn not_steps<F: Field, S: System<F>>(self, cs: &mut S) -> Result<Boolean, GadgetFault>
        ensures does { Ran (run F.Field.modulus (not_script F.Field.modulus self)) (S.System.meaning cs.old) result (S.System.meaning cs.new) }
        ensures adds { Adds S.System.meaning S.System.stored S.System.knows cs.old cs.new }
    {
        match self {
            Boolean::Constant(b) => Ok(Boolean::Constant(!b)),
            Boolean::Var(a) => a.not_steps(cs).map(Boolean::Var),
        }
    }

    /// The steps of a gate on a bit and a constant: none but, where the gate turns the bit over, those of `not`.
    fn folded<F: Field, S: System<F>>(
        self,
        gate: Gate,
        constant: bool,
        cs: &mut S,
    ) -> Result<Boolean, GadgetFault>
        ensures does { Ran (run F.Field.modulus (folded_script gate F.Field.modulus constant self)) (S.System.meaning cs.old) result (S.System.meaning cs.new) }
        ensures adds { Adds S.System.meaning S.System.stored S.System.knows cs.old cs.new }
    {
        match (gate, constant) {
            (Gate::And, true) | (Gate::Or, false) | (Gate::Xor, false) => Ok(self),
            (Gate::And, false) | (Gate::Or, true) => Ok(Boolean::Constant(constant)),
            (Gate::Xor, true) => self.not_steps(cs),
        }
    }

    /// The steps of a gate: constants fold.
    pub fn gate_steps<F: Field, S: System<F>>(
        self,
        gate: Gate,
        other: Boolean,
        cs: &mut S,
    ) -> Result<Boolean, GadgetFault>
        ensures does { Ran (run F.Field.modulus (gated_script gate F.Field.modulus self other)) (S.System.meaning cs.old) result (S.System.meaning cs.new) }
        ensures adds { Adds S.System.meaning S.System.stored S.System.knows cs.old cs.new }
    {
        match (self, other) {
            (Boolean::Constant(a), _) => other.folded(gate, a, cs),
            (Boolean::Var(_), Boolean::Constant(b)) => self.folded(gate, b, cs),
            (Boolean::Var(a), Boolean::Var(b)) => a.gate_steps(gate, b, cs).map(Boolean::Var),
        }
    }
}
