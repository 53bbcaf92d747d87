ghost use Rattle.std.specs.Prelude.{◌≡◌, ◌++◌, min, length, Some, string_bytes, OnOk};
ghost use Rattle.tape.specs.Book.{held_by};
ghost use Rattle.beside.specs.Lines.{variable_text, value_text, bit_text, number_text, answer_text, answers_text};
ghost use Rattle.relations.specs.Meaning.{ask};

use boolean::Boolean;
use command::Answer;
use field::Field;
use fp_var::FpVar;
use relations::{System, Variable};
use std::alloc::AllocError;
use std::fmt;
use std::fmt::{Display, Write};
use tape::Book;

/// The name of a variable: `one`, `zero`, `i0` for an input, `w0` for a witness, and `c0` for a combination.
#[derive(Clone, Copy)]
struct Name(Variable);

impl Display for Name {
    ghost output = { λ name. Some (variable_text name.0) };

    fn fmt<W: fmt::Write>(&self, f: &mut fmt::Formatter<W>) -> fmt::Result {
        match self.0 {
            Variable::One => f.write_str("one"),
            Variable::Zero => f.write_str("zero"),
            Variable::Input(n) => write!(f, "i{n}"),
            Variable::Witness(n) => write!(f, "w{n}"),
            Variable::Combination(n) => write!(f, "c{n}"),
        }
    }
}

/// Appends the number that a system keeps for a variable, behind a space; nothing where it keeps none.
fn push_value<F: Field, S: System<F>>(
    text: &mut String,
    system: &S,
    variable: Variable,
) -> Result<(), AllocError>
    ensures { OnOk result (string_bytes text.new ≡ string_bytes text.old ++ value_text (ask variable (S.System.meaning system.now)).0) }
{
    match system.value(variable) {
        Ok(Some(value)) => write!(text, " {}", value.to_number()),
        Ok(None) => Ok(()),
        Err(_) => Ok(()),
    }
}

/// Appends a bit: `bit constant 1`, or `bit w0 1` with the number that the system keeps, or `bit w0` where it keeps none.
fn push_bit<F: Field, S: System<F>>(
    text: &mut String,
    system: &S,
    bit: Boolean,
) -> Result<(), AllocError>
    ensures { OnOk result (string_bytes text.new ≡ string_bytes text.old ++ bit_text (S.System.meaning system.now) bit) }
{
    match bit {
        Boolean::Constant(truth) => write!(text, "bit constant {}", u8::from(truth)),
        Boolean::Var(allocated) => {
            let variable = allocated.variable();
            write!(text, "bit {}", Name(variable))?;
            push_value::<F, S>(text, system, variable)
        }
    }
}

/// Appends a number: `number constant 7`, or `number w0 7` with the number that the system keeps, or `number w0` where it keeps none.
fn push_number<F: Field, S: System<F>>(
    text: &mut String,
    system: &S,
    number: FpVar,
) -> Result<(), AllocError>
    ensures { OnOk result (string_bytes text.new ≡ string_bytes text.old ++ number_text (S.System.meaning system.now) number) }
{
    match number {
        FpVar::Constant(constant) => write!(text, "number constant {constant}"),
        FpVar::Var(allocated) => {
            let variable = allocated.variable();
            write!(text, "number {}", Name(variable))?;
            push_value::<F, S>(text, system, variable)
        }
    }
}

/// Appends the line of an answer: its place in the book, and the bit or the number.
fn push_answer<F: Field, S: System<F>>(
    text: &mut String,
    system: &S,
    book: &Book,
    number: u32,
) -> Result<(), AllocError>
    ensures { OnOk result (string_bytes text.new ≡ string_bytes text.old ++ answer_text (S.System.meaning system.now) (held_by book.now) number) }
{
    write!(text, "{number} ")?;
    match book.get(number) {
        Answer::Bit(bit) => push_bit::<F, S>(text, system, bit)?,
        Answer::Number(number) => push_number::<F, S>(text, system, number)?,
    }
    text.push_str("\n")
}

/// Appends a line for each answer; a book has at most 4,096.
pub(crate) fn push_answers<F: Field, S: System<F>>(
    text: &mut String,
    system: &S,
    book: &Book,
) -> Result<(), AllocError>
    ensures { OnOk result (string_bytes text.new ≡ string_bytes text.old ++ answers_text (S.System.meaning system.now) (held_by book.now) (min (length (held_by book.now)) 4096)) }
{
    for number in 0..book.len().min(4096) as u32 {
        push_answer::<F, S>(text, system, book, number)?;
    }
    Ok(())
}
