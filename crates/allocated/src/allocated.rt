ghost use Rattle.std.specs.Prelude.{◌≡◌, ℕ, List, [], ◌∷◌, IfOk};
ghost use Rattle.std.specs.Option.{option_map};
ghost use Rattle.relations.specs.Meaning.{Ran, Adds, Leaves, ask};
ghost use Rattle.relations.specs.declared.term.Side.TheVariants.{Witness as witness};
ghost use Rattle.relations.specs.Script.{Script, run, row, answer, over};
ghost use Rattle.relations.specs.Told.{told};
ghost use Rattle.allocated.specs.Gates.{bit, truth, gated, applied, chosen, bit_number, allocated, loose_script, booleanity, new_bit, gate_script, not_allocated, difference_rows, choice_script};

use crate::gate::Gate;
use field::Field;
use relations::{
    GadgetFault, Side, System, SystemFault, Term, Variable, just, less, minus_one, one_less, times,
};

/// A bit that no row forces yet. It can be neither copied nor made by hand, and nothing but a fault lets it go: it becomes a bit of a
/// circuit by being moved into the row or the rows that force it.
pub struct LooseBit {
    variable: Variable,
}

/// A variable that the rows force to be 0 or 1.
#[derive(Clone, Copy)]
pub struct AllocatedBool {
    variable: Variable,
}

impl Gate {
    /// What the gate makes of two truth values.
    pub fn apply(self, a: bool, b: bool) -> bool
        ensures { result ≡ applied self a b }
    {
        match self {
            Gate::And => a && b,
            Gate::Or => a || b,
            Gate::Xor => a != b,
        }
    }
}

/// The element that stands for a truth value.
fn element<F: Field>(b: bool) -> F
    ensures { F.Field.number result ≡ bit b }
{
    if b { F::one() } else { F::zero() }
}

fn bit_value<F: Field>(value: Option<bool>) -> Option<F>
    ensures { option_map F.Field.number result ≡ bit_number value }
{
    Some(element(value?))
}

fn gate_value<F: Field>(gate: Gate, x: Option<F>, y: Option<F>) -> Option<F>
    ensures { option_map F.Field.number result ≡ gated gate (option_map F.Field.number x) (option_map F.Field.number y) }
{
    let (a, b) = (x?, y?);
    Some(element(gate.apply(!a.is_zero(), !b.is_zero())))
}

/// The first value where the condition is not zero, else the second, where all are there.
pub fn chosen_value<F: Field>(condition: Option<F>, x: Option<F>, y: Option<F>) -> Option<F>
    ensures { option_map F.Field.number result ≡ chosen (option_map F.Field.number condition) (option_map F.Field.number x) (option_map F.Field.number y) }
{
    let (c, a, b) = (condition?, x?, y?);
    Some(if c.is_zero() { b } else { a })
}

impl LooseBit {
    /// A new witness that no row forces yet.
    pub fn new_witness_without_booleanity_check<F: Field, S: System<F>>(
        cs: &mut S,
        value: Option<bool>,
    ) -> Result<LooseBit, GadgetFault>
        ensures does { Ran (run F.Field.modulus (loose_script witness value)) (S.System.meaning cs.old) result (S.System.meaning cs.new) }
        ensures adds { Adds S.System.meaning S.System.stored S.System.knows cs.old cs.new }
    {
        let variable = cs.new_variable(Side::Witness, bit_value(value))?;
        Ok(LooseBit { variable })
    }

    /// The value of the bit, which is handed in and given back.
    pub fn value<F: Field, S: System<F>>(self, cs: &S) -> (LooseBit, Result<Option<F>, SystemFault>)
        ensures same { result.0 ≡ self }
        ensures asks { told F.Field.number result.1 ≡ (ask self.variable (S.System.meaning cs.now)).0 }
    {
        let LooseBit { variable } = self;
        let value = cs.value(variable);
        (LooseBit { variable }, value)
    }

    /// The bit beside the answer of steps that come before its row. Where these are refused there is no bit any more, since its gadget is refused.
    pub fn beside<A>(self, outcome: Result<A, GadgetFault>) -> Result<(LooseBit, A), GadgetFault>
        ensures bit { IfOk result (λ r. r.0 ≡ self) }
        ensures answer { outcome ≡ over (λ r. r.1) result }
    {
        let LooseBit { variable } = self;
        let answer = outcome?;
        Ok((LooseBit { variable }, answer))
    }

    // Three slices, which the gates hand over as three literals.
    /// Moves the bit into the row that forces it. Where the row is refused the bit is spent all the same.
    fn forced<F: Field, S: System<F>>(
        self,
        cs: &mut S,
        a: &[Term],
        b: &[Term],
        c: &[Term],
    ) -> Result<AllocatedBool, GadgetFault>
        ensures does { Ran (run F.Field.modulus (row a.now b.now c.now (answer (allocated self.variable)))) (S.System.meaning cs.old) result (S.System.meaning cs.new) }
        ensures adds { Adds S.System.meaning S.System.stored S.System.knows cs.old cs.new }
    {
        let LooseBit { variable } = self;
        cs.enforce_constraint(a, b, c)?;
        Ok(AllocatedBool { variable })
    }

    /// Moves the bit into the row (1 - v) * v = 0.
    pub fn enforce_boolean<F: Field, S: System<F>>(
        self,
        cs: &mut S,
    ) -> Result<AllocatedBool, GadgetFault>
        ensures does { Ran (run F.Field.modulus (booleanity F.Field.modulus self.variable)) (S.System.meaning cs.old) result (S.System.meaning cs.new) }
        ensures adds { Adds S.System.meaning S.System.stored S.System.knows cs.old cs.new }
    {
        let v = self.variable;
        self.forced(cs, &one_less::<F>(v), &just(v), &[])
    }

    /// Moves the bit w into the two rows that make it say whether a sum d is not 0: d * m = w and d * (1 - w) = 0, for a multiplier m.
    /// Where a row is refused the bit is spent all the same.
    pub fn enforce_difference<F: Field, S: System<F>>(
        self,
        cs: &mut S,
        difference: &[Term],
        multiplier: Variable,
    ) -> Result<AllocatedBool, GadgetFault>
        ensures does { Ran (run F.Field.modulus (difference_rows F.Field.modulus difference.now multiplier self.variable)) (S.System.meaning cs.old) result (S.System.meaning cs.new) }
        ensures adds { Adds S.System.meaning S.System.stored S.System.knows cs.old cs.new }
    {
        let LooseBit { variable } = self;
        cs.enforce_constraint(difference, &just(multiplier), &just(variable))?;
        let complement = cs.new_lc(&one_less::<F>(variable))?;
        LooseBit { variable }.forced(cs, difference, &just(complement), &[])
    }
}

impl AllocatedBool {
    /// The variable's name.
    pub fn variable(self) -> Variable
        ensures { result ≡ self.variable }
    {
        self.variable
    }

    /// A new input or witness with the row that forces it.
    pub fn variable_steps<F: Field, S: System<F>>(
        cs: &mut S,
        side: Side,
        value: Option<bool>,
    ) -> Result<AllocatedBool, GadgetFault>
        ensures does { Ran (run F.Field.modulus (new_bit F.Field.modulus side value)) (S.System.meaning cs.old) result (S.System.meaning cs.new) }
        ensures adds { Adds S.System.meaning S.System.stored S.System.knows cs.old cs.new }
    {
        let variable = cs.new_variable(side, bit_value(value))?;
        LooseBit { variable }.enforce_boolean(cs)
    }

    /// One less the bit.
    pub fn not_steps<F: Field, S: System<F>>(self, cs: &mut S) -> Result<AllocatedBool, GadgetFault>
        ensures does { Ran (run F.Field.modulus (not_allocated F.Field.modulus self)) (S.System.meaning cs.old) result (S.System.meaning cs.new) }
        ensures adds { Adds S.System.meaning S.System.stored S.System.knows cs.old cs.new }
    {
        let variable = cs.new_lc(&one_less::<F>(self.variable))?;
        Ok(AllocatedBool { variable })
    }

    /// A gate on two variables: a witness for its output, moved into the row that forces it.
    pub fn gate_steps<F: Field, S: System<F>>(
        self,
        gate: Gate,
        other: AllocatedBool,
        cs: &mut S,
    ) -> Result<AllocatedBool, GadgetFault>
        ensures does { Ran (run F.Field.modulus (gate_script gate F.Field.modulus self other)) (S.System.meaning cs.old) result (S.System.meaning cs.new) }
        ensures adds { Adds S.System.meaning S.System.stored S.System.knows cs.old cs.new }
    {
        let (a, b) = (self.variable, other.variable);
        let x = cs.value(a)?;
        let y = cs.value(b)?;
        let w = cs.new_variable(Side::Witness, gate_value(gate, x, y))?;
        let output = LooseBit { variable: w };
        // An arm for each row, since the rows differ in how many terms they have.
        match gate {
            Gate::And => output.forced(cs, &just(a), &just(b), &just(w)),
            Gate::Or => output.forced(cs, &one_less::<F>(a), &one_less::<F>(b), &one_less::<F>(w)),
            Gate::Xor => output.forced(
                cs,
                &[times(2, a)],
                &just(b),
                &[times(1, a), times(1, b), times(minus_one::<F>(), w)],
            ),
        }
    }

    /// A choice between two variables, the first where the bit is one: a witness w, moved into the row c * (a - b) = w - b.
    pub fn choice_steps<F: Field, S: System<F>>(
        self,
        a: AllocatedBool,
        b: AllocatedBool,
        cs: &mut S,
    ) -> Result<AllocatedBool, GadgetFault>
        ensures does { Ran (run F.Field.modulus (choice_script F.Field.modulus self a b)) (S.System.meaning cs.old) result (S.System.meaning cs.new) }
        ensures adds { Adds S.System.meaning S.System.stored S.System.knows cs.old cs.new }
    {
        let (c, a, b) = (self.variable, a.variable, b.variable);
        let condition = cs.value(c)?;
        let x = cs.value(a)?;
        let y = cs.value(b)?;
        let w = cs.new_variable(Side::Witness, chosen_value(condition, x, y))?;
        LooseBit { variable: w }.forced(cs, &just(c), &less::<F>(a, b), &less::<F>(w, b))
    }
}
