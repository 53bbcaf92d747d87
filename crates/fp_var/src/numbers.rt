use boolean::{AllocationMode, Boolean};
use fp::AllocatedFp;

// A number, and not an element of a type of its own: a constant is read modulo the field's prime, as a term's coefficient is, so that answers, books
// and slices of numbers need no field.
/// A number of a circuit: a constant, which is read modulo the field's prime, or a variable.
#[derive(Clone, Copy)]
pub enum FpVar {
    Constant(u32),
    Var(AllocatedFp),
}

// Enums, here and below, and not closures: a command's call is data, of which its script is a function.
/// A call on numbers with its operands, whose answer is a number.
#[derive(Clone, Copy)]
pub enum FpCall {
    Allocate(AllocationMode, Option<u32>),
    Add(FpVar, FpVar),
    Sub(FpVar, FpVar),
    Mul(FpVar, FpVar),
    Negate(FpVar),
    Double(FpVar),
    Inverse(FpVar),
    Select(Boolean, FpVar, FpVar),
    FromBit(Boolean),
}

/// A question on numbers with its operands, whose answer is a bit.
#[derive(Clone, Copy)]
pub enum FpQuestion {
    IsEq(FpVar, FpVar),
    IsNeq(FpVar, FpVar),
}

/// A statement on numbers with its operands. The last of `Equal` and `Unequal` is the condition under which they hold.
#[derive(Clone, Copy)]
pub enum FpStatement {
    MulEquals(FpVar, FpVar, FpVar),
    SquareEquals(FpVar, FpVar),
    Equal(FpVar, FpVar, Boolean),
    Unequal(FpVar, FpVar, Boolean),
}
