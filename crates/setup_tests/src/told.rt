// What calls answer, as numbers that can be compared.
use field::{F101, Field};
use relations::{Refusal, SystemFault, Term, Variable};

/// A refusal's number and layer.
pub(crate) fn refused(fault: SystemFault) -> (u32, u32) {
    let Refusal { number, layer } = fault.into();
    (number, layer)
}

/// A variable, by a number for its kind and its own, or a refusal.
pub(crate) fn named(outcome: Result<Variable, SystemFault>) -> (u32, u32) {
    match outcome {
        Ok(Variable::One) => (100, 0),
        Ok(Variable::Zero) => (101, 0),
        Ok(Variable::Input(i)) => (102, i),
        Ok(Variable::Witness(i)) => (103, i),
        Ok(Variable::Combination(c)) => (104, c),
        Err(fault) => refused(fault),
    }
}

/// That a call was done, or its refusal.
pub(crate) fn done(outcome: Result<(), SystemFault>) -> (u32, u32) {
    match outcome {
        Ok(()) => (0, 0),
        Err(fault) => refused(fault),
    }
}

/// A value, an absent one, or a refusal.
pub(crate) fn asked(outcome: Result<Option<F101>, SystemFault>) -> (u32, u32) {
    match outcome {
        Ok(Some(x)) => (200, x.to_number()),
        Ok(None) => (201, 0),
        Err(fault) => refused(fault),
    }
}

pub(crate) fn term(coefficient: u32, variable: Variable) -> Term {
    Term {
        coefficient,
        variable,
    }
}
