use allocated::Gate;

/// What an answer of the book is: a bit or a number.
#[derive(Clone, Copy, PartialEq, Eq)]
pub enum Kind {
    Bit,
    Number,
}

/// Consecutive answers of the book: the number of the first, and how many there are. Where there are none the first is not looked at.
#[derive(Clone, Copy)]
pub struct Range {
    pub first: u16,
    pub count: u8,
}

/// A command on any number of bits: whether all are one, some are, or some are not; or the statement that some are not.
#[derive(Clone, Copy)]
pub enum Kary {
    And,
    Or,
    Nand,
    EnforceNand,
}

/// A statement on two answers under a condition: that they are equal, or that they differ.
#[derive(Clone, Copy)]
pub enum Claim {
    Equal,
    Unequal,
}

/// A command on two numbers, whose answer is a number.
#[derive(Clone, Copy)]
pub enum Binary {
    Add,
    Sub,
    Mul,
}

/// A command on one number, whose answer is a number.
#[derive(Clone, Copy)]
pub enum Unary {
    Negate,
    Double,
    Inverse,
}

/// A question on two numbers: whether they are equal, or are not.
#[derive(Clone, Copy)]
pub enum Comparison {
    IsEq,
    IsNeq,
}

/// A command as its bytes say, before any operand is looked at: an operand is the number of an answer of the book.
#[derive(Clone, Copy)]
pub enum Command {
    // Bytes, and not a mode and a value: a byte that stands for none is refused as an operand, after the command is known.
    Bit(u8, u8),
    Clone(u32),
    Not(u32),
    Gated(Gate, u32, u32),
    Kary(Kary, Range),
    IsEqual(u32, u32),
    // The condition first, as on the tape.
    Select(u32, u32, u32),
    // The condition last, as on the tape.
    Enforce(Claim, u32, u32, u32),
    AtMost(Range, u64),
    // The mode, whether a value is there, and the value: bytes, as for a bit.
    Number(u8, u8, i64),
    Binary(Binary, u32, u32),
    Unary(Unary, u32),
    MulEquals(u32, u32, u32),
    SquareEquals(u32, u32),
    Compare(Comparison, u32, u32),
    // The condition last, as on the tape.
    EnforceNumbers(Claim, u32, u32, u32),
    // The condition first, as on the tape.
    SelectNumber(u32, u32, u32),
    FromBit(u32),
}

/// A command, and how many bytes it takes.
#[derive(Clone, Copy)]
pub struct Decoded {
    pub command: Command,
    pub length: usize,
}
