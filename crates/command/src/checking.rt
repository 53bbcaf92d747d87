ghost use Rattle.std.specs.Prelude.{◌≡◌, List, length};
ghost use Rattle.relations.specs.Script.{over};
ghost use Rattle.command.specs.declared.commands.Kind.{Kind as Sort};
ghost use Rattle.command.specs.Decide.{kind_at, is_bit, is_number, range_is_bits, short, fits, measured, answers, checked};

use crate::commands::{Command, Kary, Kind, Range};
use crate::fault::TapeFault;
use gates::bit_length;

/// A book by the kinds of its answers.
pub trait Kinds {
    ghost kinds: { Self → List Sort };

    /// How many answers there are.
    fn count(&self) -> usize
        ensures { result ≡ length (kinds self.now) };

    /// The kind of an answer, none where there is no such answer.
    fn kind(&self, a: u32) -> Option<Kind>
        ensures { result ≡ kind_at (kinds self.now) a };
}

/// Whether an answer is there and is a bit.
fn names_bit<B: Kinds>(book: &B, a: u32) -> bool
    ensures { result ≡ is_bit (B.Kinds.kinds book.now) a }
{
    book.kind(a) == Some(Kind::Bit)
}

/// Whether an answer is there and is a number.
fn names_number<B: Kinds>(book: &B, a: u32) -> bool
    ensures { result ≡ is_number (B.Kinds.kinds book.now) a }
{
    book.kind(a) == Some(Kind::Number)
}

/// Whether all answers of a range are there and are bits.
fn name_bits<B: Kinds>(book: &B, range: Range) -> bool
    ensures { result ≡ range_is_bits (B.Kinds.kinds book.now) range }
{
    let first: u32 = range.first.into();
    for i in 0..range.count {
        if !names_bit(book, first + i as u32) {
            return false;
        }
    }
    true
}

/// Whether a range has at most 64 answers.
fn is_short(range: Range) -> bool
    ensures { result ≡ short range }
{
    range.count <= 64
}

// Matches on the command, here and below, as in its definitions.
/// Whether a command's operands name answers of the right kinds and its bytes are among their values.
fn is_fit<B: Kinds>(command: Command, book: &B) -> bool
    ensures { result ≡ fits command (B.Kinds.kinds book.now) }
{
    match command {
        Command::Bit(mode, value) => mode <= 2 && value <= 2,
        Command::Clone(a) => book.kind(a).is_some(),
        Command::Not(a) => names_bit(book, a),
        Command::Gated(_, a, b) | Command::IsEqual(a, b) => names_bit(book, a)
            && names_bit(book, b),
        Command::Kary(_, range) | Command::AtMost(range, _) => name_bits(book, range),
        Command::Select(a, b, c) | Command::Enforce(_, a, b, c) => {
            names_bit(book, a) && names_bit(book, b) && names_bit(book, c)
        }
        Command::Number(mode, there, _) => mode <= 2 && there <= 1,
        Command::Binary(_, a, b) | Command::SquareEquals(a, b) | Command::Compare(_, a, b) => {
            names_number(book, a) && names_number(book, b)
        }
        Command::Unary(_, a) => names_number(book, a),
        Command::MulEquals(a, b, c) => {
            names_number(book, a) && names_number(book, b) && names_number(book, c)
        }
        Command::EnforceNumbers(_, a, b, c) => {
            names_number(book, a) && names_number(book, b) && names_bit(book, c)
        }
        Command::SelectNumber(c, a, b) => {
            names_bit(book, c) && names_number(book, a) && names_number(book, b)
        }
        Command::FromBit(a) => names_bit(book, a),
    }
}

/// Whether a command's lengths are right.
fn is_measured(command: Command) -> bool
    ensures { result ≡ measured command }
{
    match command {
        Command::Kary(_, range) => range.count >= 1 && is_short(range),
        Command::AtMost(range, element) => bit_length(element) <= range.count as u32
            && is_short(range),
        _ => true,
    }
}

/// How many answers a command adds to the book.
fn answer_count(command: Command) -> usize
    ensures { (ks : List Sort) → result ≡ length (answers command ks) }
{
    match command {
        Command::Kary(Kary::EnforceNand, _)
        | Command::Enforce(_, _, _, _)
        | Command::AtMost(_, _)
        | Command::MulEquals(_, _, _)
        | Command::SquareEquals(_, _)
        | Command::EnforceNumbers(_, _, _, _) => 0,
        _ => 1,
    }
}

/// What decides before any gadget runs: the operands and bytes of a command, then its lengths, and then the places that its answers want.
pub fn check<B: Kinds>(command: Command, book: &B, places: usize) -> Result<(), TapeFault>
    ensures { result ≡ over (λ _. tt) (checked command (B.Kinds.kinds book.now) places) }
{
    if !is_fit(command, book) {
        return Err(TapeFault::Operand);
    }
    if !is_measured(command) {
        return Err(TapeFault::Length);
    }
    let count = answer_count(command);
    if count > places || book.count() > places - count {
        return Err(TapeFault::BookFull);
    }
    Ok(())
}
