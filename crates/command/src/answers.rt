ghost use Rattle.std.specs.Prelude.{◌≡◌, ◌≤◌};
ghost use Rattle.command.specs.Answers.{kind_of, mode_of, value_of, number_of as number_modulo};

use crate::commands::Kind;
use crate::fault::TapeFault;
use boolean::{AllocationMode, Boolean};
use field::Field;
use fp_var::FpVar;
use relations::Refusal;
use std::fmt;

/// An answer of the book.
#[derive(Clone, Copy)]
pub enum Answer {
    Bit(Boolean),
    Number(FpVar),
}

/// A refused command of a run: its number, counted from 0, and the refusal.
#[derive(Clone, Copy)]
pub struct Refused {
    pub command: u32,
    pub refusal: Refusal,
}

impl Refused {
    ghost use Rattle.command.specs.Refusals.{of_tape};

    /// The command with a number, refused with a fault.
    pub fn new(command: u32, fault: TapeFault) -> Refused
        ensures command { result.command ≡ command }
        ensures refusal { result.refusal ≡ of_tape fault }
    {
        let refusal = fault.into();
        Refused { command, refusal }
    }
}

impl fmt::Display for Refused {
    ghost use Rattle.std.specs.Prelude.{Some};
    ghost use Rattle.command.specs.Refusals.{refused_text};

    ghost output = { λ r. Some (refused_text r) };

    fn fmt<W: fmt::Write>(&self, f: &mut fmt::Formatter<W>) -> fmt::Result {
        let Refused {
            command,
            refusal: Refusal { number, layer },
        } = *self;
        write!(f, "refused {command} {number} {layer}")
    }
}

/// The answers of one command, in their order.
// An array with a count, and not a slice of the book: what a command answers is known before it is known whether the book takes it. It is
// handed on by value for each command of a tape, so it is short: no served command fills more than one.
#[derive(Clone, Copy)]
pub struct Answers {
    list: [Answer; 2],
    count: usize,
    ghost few: { count ≤ 2 },
}

impl Answers {
    ghost use Rattle.std.specs.Prelude.{[], ◌∷◌};
    ghost use Rattle.command.specs.Listed.{listed};

    /// No answer.
    pub fn none() -> Answers
        ensures { listed result ≡ [] }
    {
        let nothing = Answer::Bit(Boolean::Constant(false));
        Answers {
            list: [nothing; 2],
            count: 0,
        }
    }

    /// One answer.
    pub fn one(answer: Answer) -> Answers
        ensures { listed result ≡ answer ∷ [] }
    {
        Answers {
            list: [answer; 2],
            count: 1,
        }
    }

    /// The answers as a slice.
    pub fn as_slice(&self) -> &[Answer]
        ensures { result.now ≡ listed self.now }
    {
        &self.list[..self.count]
    }
}

impl Answer {
    // A method, and not a `From`: it asks what an answer is, and does not turn it into something else.
    /// Whether the answer is a bit or a number.
    pub fn kind(self) -> Kind
        ensures { result ≡ kind_of self }
    {
        match self {
            Answer::Bit(_) => Kind::Bit,
            Answer::Number(_) => Kind::Number,
        }
    }
}

// Not a `From`: which byte stands for which mode is the tape's rule, and not the type's.
/// The mode that a byte stands for: 0 constant, 1 input, 2 and more witness.
pub fn mode_of(byte: u8) -> AllocationMode
    ensures { result ≡ mode_of byte }
{
    match byte {
        0 => AllocationMode::Constant,
        1 => AllocationMode::Input,
        _ => AllocationMode::Witness,
    }
}

// Not a `From`, as `mode_of` is none.
/// The truth value that a byte stands for: 0 false, 1 true, 2 and more none.
pub fn value_of(byte: u8) -> Option<bool>
    ensures { result ≡ value_of byte }
{
    match byte {
        0 => Some(false),
        1 => Some(true),
        _ => None,
    }
}

// Not a `From`, as `value_of` is none.
/// A signed number of the tape, modulo the field's prime, where the byte before it says that it is there: 0 says that it is not.
pub fn number_of<F: Field>(there: u8, value: i64) -> Option<u32>
    ensures { result ≡ number_modulo F.Field.modulus there value }
{
    if there == 0 {
        return None;
    }
    Some(F::from_i64(value).to_number())
}
