ghost use Rattle.std.specs.Prelude.{◌≡◌, true};
ghost use Rattle.relations.specs.Meaning.{Ran, Adds, Leaves};
ghost use Rattle.relations.specs.Script.{run, whole, over};
ghost use Rattle.command.specs.Listed.{listed};
ghost use Rattle.command.specs.Answers.{bit_at, number_at};
ghost use Rattle.tape.specs.Action.{action as action_of, action_script, short_enough, bit_claim, binary_call, unary_call, comparison_of, number_claim as claim_of};
ghost use Rattle.tape.specs.Book.{held_by};

use crate::book::Book;
use crate::executing::{
    ask_of_numbers, at_most, call_on_bits, call_on_numbers, on_range, state_of_bits,
    state_of_numbers,
};
use boolean::{BooleanCall, BooleanStatement};
use command::{Answers, Binary, Claim, Command, Comparison, Unary, mode_of, number_of, value_of};
use field::Field;
use fp_var::{FpCall, FpQuestion, FpStatement};
use relations::{GadgetFault, System};

/// The statement that a command makes of two bits.
fn claim(claim: Claim, book: &Book, a: u32, b: u32, c: u32) -> BooleanStatement
    ensures { result ≡ bit_claim claim (bit_at (held_by book.now) a) (bit_at (held_by book.now) b) (bit_at (held_by book.now) c) }
{
    let (x, y, condition) = (book.bit(a), book.bit(b), book.bit(c));
    match claim {
        Claim::Equal => BooleanStatement::Equal(x, y, condition),
        Claim::Unequal => BooleanStatement::Unequal(x, y, condition),
    }
}

/// The call of a command on two numbers.
fn binary(operation: Binary, book: &Book, a: u32, b: u32) -> FpCall
    ensures { result ≡ binary_call operation (number_at (held_by book.now) a) (number_at (held_by book.now) b) }
{
    let (x, y) = (book.number(a), book.number(b));
    match operation {
        Binary::Add => FpCall::Add(x, y),
        Binary::Sub => FpCall::Sub(x, y),
        Binary::Mul => FpCall::Mul(x, y),
    }
}

/// The call of a command on one number.
fn unary(operation: Unary, book: &Book, a: u32) -> FpCall
    ensures { result ≡ unary_call operation (number_at (held_by book.now) a) }
{
    let x = book.number(a);
    match operation {
        Unary::Negate => FpCall::Negate(x),
        Unary::Double => FpCall::Double(x),
        Unary::Inverse => FpCall::Inverse(x),
    }
}

/// The question of a command on two numbers.
fn compare(comparison: Comparison, book: &Book, a: u32, b: u32) -> FpQuestion
    ensures { result ≡ comparison_of comparison (number_at (held_by book.now) a) (number_at (held_by book.now) b) }
{
    let (x, y) = (book.number(a), book.number(b));
    match comparison {
        Comparison::IsEq => FpQuestion::IsEq(x, y),
        Comparison::IsNeq => FpQuestion::IsNeq(x, y),
    }
}

/// The statement that a command makes of two numbers.
fn number_claim(claim: Claim, book: &Book, a: u32, b: u32, c: u32) -> FpStatement
    ensures { result ≡ claim_of claim (number_at (held_by book.now) a) (number_at (held_by book.now) b) (bit_at (held_by book.now) c) }
{
    let (x, y, condition) = (book.number(a), book.number(b), book.bit(c));
    match claim {
        Claim::Equal => FpStatement::Equal(x, y, condition),
        Claim::Unequal => FpStatement::Unequal(x, y, condition),
    }
}

// A match, and no table of functions, as its definition is one. Each arm makes its call by itself: were the arms to give an `Action` and another match to
// make its call, a command that adds no row would take up to a half more time.
/// The gadget's call that a command asks for, its operands looked up in the book.
#[inline(always)]
pub(crate) fn perform<F: Field, S: System<F>>(
    cs: &mut S,
    command: Command,
    book: &Book,
) -> Result<Answers, GadgetFault>
    requires { short_enough (action_of F.Field.modulus command (held_by book.now)) ≡ true }
    ensures does { Ran (whole (run F.Field.modulus (action_script F.Field.modulus (action_of F.Field.modulus command (held_by book.now)) (held_by book.now)))) (S.System.meaning cs.old) (over listed result) (S.System.meaning cs.new) }
    ensures adds { Adds S.System.meaning S.System.stored S.System.knows cs.old cs.new }
    ensures leaves { Leaves result (S.System.stored cs.old) (S.System.stored cs.new) }
{
    match command {
        Command::Bit(mode, value) => {
            let gadget = BooleanCall::Allocate(mode_of(mode), value_of(value));
            call_on_bits(cs, gadget)
        }
        Command::Clone(a) => Ok(Answers::one(book.get(a))),
        Command::Not(a) => call_on_bits(cs, BooleanCall::Not(book.bit(a))),
        Command::Gated(gate, a, b) => {
            let gadget = BooleanCall::Gated(gate, book.bit(a), book.bit(b));
            call_on_bits(cs, gadget)
        }
        Command::Kary(kary, range) => on_range(cs, kary, range, book),
        Command::IsEqual(a, b) => {
            let gadget = BooleanCall::Equality(book.bit(a), book.bit(b));
            call_on_bits(cs, gadget)
        }
        Command::Select(c, a, b) => {
            let gadget = BooleanCall::Choice(book.bit(c), book.bit(a), book.bit(b));
            call_on_bits(cs, gadget)
        }
        Command::Enforce(kind, a, b, c) => state_of_bits(cs, claim(kind, book, a, b, c)),
        Command::AtMost(range, element) => at_most(cs, range, element, book),
        Command::Number(mode, there, value) => {
            let gadget = FpCall::Allocate(mode_of(mode), number_of::<F>(there, value));
            call_on_numbers(cs, gadget)
        }
        Command::Binary(operation, a, b) => call_on_numbers(cs, binary(operation, book, a, b)),
        Command::Unary(operation, a) => call_on_numbers(cs, unary(operation, book, a)),
        Command::MulEquals(a, b, c) => {
            let (x, y, z) = (book.number(a), book.number(b), book.number(c));
            state_of_numbers(cs, FpStatement::MulEquals(x, y, z))
        }
        Command::SquareEquals(a, b) => {
            let (x, y) = (book.number(a), book.number(b));
            state_of_numbers(cs, FpStatement::SquareEquals(x, y))
        }
        Command::Compare(kind, a, b) => ask_of_numbers(cs, compare(kind, book, a, b)),
        Command::EnforceNumbers(kind, a, b, c) => {
            state_of_numbers(cs, number_claim(kind, book, a, b, c))
        }
        Command::SelectNumber(c, a, b) => {
            let gadget = FpCall::Select(book.bit(c), book.number(a), book.number(b));
            call_on_numbers(cs, gadget)
        }
        Command::FromBit(a) => call_on_numbers(cs, FpCall::FromBit(book.bit(a))),
    }
}
