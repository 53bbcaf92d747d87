ghost use Rattle.std.specs.Prelude.{◌≡◌, ◌+◌, ◌*◌};
ghost use Rattle.command.specs.Tape.{length_of, shape_of, ranged, short as short_of, on_range as range_of, on_two as two_of, on_three as three_of, decoded};

use crate::commands::{Binary, Claim, Command, Comparison, Decoded, Kary, Range, Unary};
use allocated::Gate;

/// What follows an opcode: two bytes, a range, two answers, three, a signed number with its mode, or a range with a bound.
#[derive(Clone, Copy)]
pub enum Shape {
    Short,
    Ranged,
    Two,
    Three,
    Valued,
    Bounded,
}

impl Shape {
    /// How many bytes a command of this shape takes, its opcode counted.
    #[inline(always)]
    pub fn length(self) -> usize
        ensures { result ≡ length_of self }
    {
        match self {
            Shape::Short => 3,
            Shape::Ranged => 4,
            Shape::Two => 5,
            Shape::Three => 7,
            Shape::Valued => 11,
            Shape::Bounded => 12,
        }
    }
}

// A table, which answers none where it has no line, and no conversion of a type.
/// The shape of the command with an opcode, none where there is no such command.
#[inline(always)]
pub fn opcode_shape(opcode: u8) -> Option<Shape>
    ensures { result ≡ shape_of opcode }
{
    match opcode {
        0x01 | 0x03 | 0x10 | 0x23 | 0x24 | 0x25 | 0x2D => Some(Shape::Short),
        0x14 | 0x15 | 0x16 | 0x17 => Some(Shape::Ranged),
        0x11 | 0x12 | 0x13 | 0x18 | 0x20 | 0x21 | 0x22 | 0x27 | 0x28 | 0x29 => Some(Shape::Two),
        0x19 | 0x1A | 0x1B | 0x26 | 0x2A | 0x2B | 0x2C => Some(Shape::Three),
        0x02 => Some(Shape::Valued),
        0x34 => Some(Shape::Bounded),
        _ => None,
    }
}

/// The number of an answer, from its low byte and its high one.
#[inline(always)]
fn operand(low: u8, high: u8) -> u32
    ensures { result ≡ low + 256 * high }
{
    u16::from_le_bytes([low, high]).into()
}

/// So many answers, from the one with the number that two bytes give.
#[inline(always)]
fn range(low: u8, high: u8, count: u8) -> Range
    ensures { result ≡ ranged (low + 256 * high) count }
{
    let first = u16::from_le_bytes([low, high]);
    Range { first, count }
}

/// The command with an opcode before two bytes: a mode and a value, or the number of an answer.
#[inline(always)]
fn short(opcode: u8, x: u8, y: u8) -> Command
    ensures { result ≡ short_of opcode x y }
{
    let a = operand(x, y);
    match opcode {
        0x01 => Command::Bit(x, y),
        0x03 => Command::Clone(a),
        0x10 => Command::Not(a),
        0x23 => Command::Unary(Unary::Negate, a),
        0x24 => Command::Unary(Unary::Double, a),
        0x25 => Command::Unary(Unary::Inverse, a),
        _ => Command::FromBit(a),
    }
}

/// The command with an opcode before a range.
#[inline(always)]
fn on_range(opcode: u8, range: Range) -> Command
    ensures { result ≡ range_of opcode range }
{
    let kary = match opcode {
        0x14 => Kary::And,
        0x15 => Kary::Or,
        0x16 => Kary::Nand,
        _ => Kary::EnforceNand,
    };
    Command::Kary(kary, range)
}

/// The command with an opcode before two answers.
#[inline(always)]
fn on_two(opcode: u8, a: u32, b: u32) -> Command
    ensures { result ≡ two_of opcode a b }
{
    match opcode {
        0x11 => Command::Gated(Gate::And, a, b),
        0x12 => Command::Gated(Gate::Or, a, b),
        0x13 => Command::Gated(Gate::Xor, a, b),
        0x18 => Command::IsEqual(a, b),
        0x20 => Command::Binary(Binary::Add, a, b),
        0x21 => Command::Binary(Binary::Sub, a, b),
        0x22 => Command::Binary(Binary::Mul, a, b),
        0x27 => Command::SquareEquals(a, b),
        0x28 => Command::Compare(Comparison::IsEq, a, b),
        _ => Command::Compare(Comparison::IsNeq, a, b),
    }
}

/// The command with an opcode before three answers.
#[inline(always)]
fn on_three(opcode: u8, a: u32, b: u32, c: u32) -> Command
    ensures { result ≡ three_of opcode a b c }
{
    match opcode {
        0x19 => Command::Select(a, b, c),
        0x1A => Command::Enforce(Claim::Equal, a, b, c),
        0x1B => Command::Enforce(Claim::Unequal, a, b, c),
        0x26 => Command::MulEquals(a, b, c),
        0x2A => Command::EnforceNumbers(Claim::Equal, a, b, c),
        0x2B => Command::EnforceNumbers(Claim::Unequal, a, b, c),
        _ => Command::SelectNumber(a, b, c),
    }
}

/// The first command of some bytes, none where it is unknown or cut off.
#[inline(always)]
pub fn decode(tape: &[u8]) -> Option<Decoded>
    ensures { result ≡ decoded tape.now }
{
    let opcode = *tape.first()?;
    let shape = opcode_shape(opcode)?;
    let command = match (shape, tape) {
        (Shape::Short, [_, x, y, ..]) => short(opcode, *x, *y),
        (Shape::Ranged, [_, a, b, k, ..]) => on_range(opcode, range(*a, *b, *k)),
        (Shape::Two, [_, a, b, c, d, ..]) => on_two(opcode, operand(*a, *b), operand(*c, *d)),
        (Shape::Three, [_, a, b, c, d, e, f, ..]) => on_three(
            opcode,
            operand(*a, *b),
            operand(*c, *d),
            operand(*e, *f),
        ),
        (Shape::Valued, [_, mode, there, a, b, c, d, e, f, g, h, ..]) => Command::Number(
            *mode,
            *there,
            i64::from_le_bytes([*a, *b, *c, *d, *e, *f, *g, *h]),
        ),
        (Shape::Bounded, [_, low, high, k, a, b, c, d, e, f, g, h, ..]) => Command::AtMost(
            range(*low, *high, *k),
            u64::from_le_bytes([*a, *b, *c, *d, *e, *f, *g, *h]),
        ),
        _ => return None,
    };
    Some(Decoded {
        command,
        length: shape.length(),
    })
}
