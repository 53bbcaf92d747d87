use crate::mode::AllocationMode;
use allocated::{AllocatedBool, Gate};

/// A bit of a circuit: a constant, or a variable that the rows force to be 0 or 1.
#[derive(Clone, Copy)]
pub enum Boolean {
    Constant(bool),
    Var(AllocatedBool),
}

// An enum, and not a closure: a command's call is data, of which its script is a function.
/// A call on bits with its operands.
#[derive(Clone, Copy)]
pub enum BooleanCall {
    Allocate(AllocationMode, Option<bool>),
    Not(Boolean),
    Gated(Gate, Boolean, Boolean),
    Equality(Boolean, Boolean),
    Choice(Boolean, Boolean, Boolean),
}

/// A statement on bits with its operands, the last of which is the condition under which it holds.
#[derive(Clone, Copy)]
pub enum BooleanStatement {
    Equal(Boolean, Boolean, Boolean),
    Unequal(Boolean, Boolean, Boolean),
}
