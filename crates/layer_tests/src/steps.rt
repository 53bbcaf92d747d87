// Steps on a system over the field with 101 elements, and what they are told. Tests are tables of steps, so that each has few calls.
use field::{F101, Field};
use relations::{Mark, Refusal, Side, System, SystemFault, Variable, just};
use std::process::Abort;
use systems::Rooms;

/// Rooms for one input, one witness, and so many terms and rows.
pub fn rooms(terms: u32, rows: u32) -> Rooms {
    Rooms {
        inputs: 1,
        witnesses: 1,
        terms,
        rows,
    }
}

/// The number and the layer of a refusal, or zeros where a step is accepted.
pub type Told = (u32, u32);

pub const ACCEPTED: Told = (0, 0);

fn told<A: Drop>(answer: Result<A, SystemFault>) -> Told {
    match answer {
        Ok(_) => ACCEPTED,
        Err(fault) => {
            let Refusal { number, layer } = fault.into();
            (number, layer)
        }
    }
}

/// A step on a system.
#[derive(Clone, Copy)]
pub enum Step {
    /// The row 1 × 1 = 1, of three terms, which is met.
    Met,
    /// The row 1 × 1 = 0, of two terms, which is not.
    Unmet,
    /// The row v × 1 = 1.
    Naming(Variable),
    /// Whether that row is admitted.
    Admits(Variable),
    /// A combination of no terms: its heading.
    Combination,
    /// A new input or witness.
    New(Side, Option<u32>),
    /// A variable's value.
    Value(Variable),
}

/// One step.
pub fn take<S: System<F101>>(system: &mut S, step: Step) -> Told {
    let one = just(Variable::One);
    match step {
        Step::Met => told(system.enforce_constraint(&one, &one, &one)),
        Step::Unmet => told(system.enforce_constraint(&one, &one, &[])),
        Step::Naming(v) => told(system.enforce_constraint(&just(v), &one, &one)),
        Step::Admits(v) => told(system.admits(&just(v), &one, &one)),
        Step::Combination => told(system.new_lc(&[])),
        Step::New(side, value) => told(system.new_variable(side, value.map(F101::from_number))),
        Step::Value(v) => told(system.value(v)),
    }
}

/// Cuts a system back to a mark.
pub fn cut<S: System<F101>>(system: &mut S, mark: Mark) -> Told {
    told(system.rewind(mark))
}

/// Takes steps, each of which has to be told what stands beside it.
pub fn follow<S: System<F101>>(rt: &impl Abort, system: &mut S, steps: &[(Step, Told)]) {
    for (step, want) in steps {
        assert_eq!(rt; take(system, *step), *want);
    }
}
