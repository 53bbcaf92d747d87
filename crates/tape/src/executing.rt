ghost use Rattle.std.specs.Prelude.{◌≡◌, true};
ghost use Rattle.relations.specs.Meaning.{Ran, Adds, Leaves};
ghost use Rattle.relations.specs.Script.{run, whole, over};
ghost use Rattle.boolean.specs.Booleans.{call_script, statement_script};
ghost use Rattle.fp_var.specs.Numbers.{call_script as number_call_script, question_script, statement_script as number_statement_script};
ghost use Rattle.command.specs.Answers.{kary_steps, bits_at, no_answer as nothing, one_number as a_number, one_bit as a_bit};
ghost use Rattle.command.specs.Decide.{short};
ghost use Rattle.command.specs.Listed.{listed};
ghost use Rattle.gates.specs.Walk.{walk_script};
ghost use Rattle.tape.specs.Book.{held_by};
ghost use Rattle.readings.specs.State.{executed};
ghost use Rattle.readings.specs.Runs.{History, Running, Stepped, Unchanged};
ghost use Rattle.tape.specs.State.{state_of};

use crate::answering::{kary, no_answer, one_bit, one_number};
use crate::book::Book;
use crate::circuit::Circuit;
use crate::resolving::perform;
use boolean::{BooleanCall, BooleanStatement};
use command::{Answers, Command, Kary, Range, TapeFault, check};
use field::Field;
use fp_var::{FpCall, FpQuestion, FpStatement};
use gates::KaryStatement;
use relations::{GadgetFault, System, call};

// Two functions, and not two arms of `perform`, which cleared the 64 bits of both at every command.

/// A question or the statement on the bits of a range.
pub(crate) fn on_range<F: Field, S: System<F>>(
    cs: &mut S,
    question: Kary,
    range: Range,
    book: &Book,
) -> Result<Answers, GadgetFault>
    requires { short range ≡ true }
    ensures does { Ran (whole (run F.Field.modulus (kary_steps question F.Field.modulus (bits_at (held_by book.now) range)))) (S.System.meaning cs.old) (over listed result) (S.System.meaning cs.new) }
    ensures adds { Adds S.System.meaning S.System.stored S.System.knows cs.old cs.new }
    ensures leaves { Leaves result (S.System.stored cs.old) (S.System.stored cs.new) }
{
    let bits = book.bits(range);
    kary(question, &bits[..range.count as usize], cs)
}

/// The statement that the bits of a range spell at most a number.
pub(crate) fn at_most<F: Field, S: System<F>>(
    cs: &mut S,
    range: Range,
    element: u64,
    book: &Book,
) -> Result<Answers, GadgetFault>
    requires { short range ≡ true }
    ensures does { Ran (whole (run F.Field.modulus (nothing (walk_script F.Field.modulus (bits_at (held_by book.now) range) element)))) (S.System.meaning cs.old) (over listed result) (S.System.meaning cs.new) }
    ensures adds { Adds S.System.meaning S.System.stored S.System.knows cs.old cs.new }
    ensures leaves { Leaves result (S.System.stored cs.old) (S.System.stored cs.new) }
{
    let bits = book.bits(range);
    no_answer(call(
        &KaryStatement::AtMost(&bits[..range.count as usize], element),
        cs,
    ))
}

// A function for each kind of call, so that its script is said once. They are inlined always: where the answer comes from a function through memory, a
// command that adds no row takes up to twice and a half as long.

/// A call on bits.
#[inline(always)]
pub(crate) fn call_on_bits<F: Field, S: System<F>>(
    cs: &mut S,
    gadget: BooleanCall,
) -> Result<Answers, GadgetFault>
    ensures does { Ran (whole (run F.Field.modulus (a_bit (call_script F.Field.modulus gadget)))) (S.System.meaning cs.old) (over listed result) (S.System.meaning cs.new) }
    ensures adds { Adds S.System.meaning S.System.stored S.System.knows cs.old cs.new }
    ensures leaves { Leaves result (S.System.stored cs.old) (S.System.stored cs.new) }
{
    one_bit(call(&gadget, cs))
}

/// A statement on bits.
#[inline(always)]
pub(crate) fn state_of_bits<F: Field, S: System<F>>(
    cs: &mut S,
    statement: BooleanStatement,
) -> Result<Answers, GadgetFault>
    ensures does { Ran (whole (run F.Field.modulus (nothing (statement_script F.Field.modulus statement)))) (S.System.meaning cs.old) (over listed result) (S.System.meaning cs.new) }
    ensures adds { Adds S.System.meaning S.System.stored S.System.knows cs.old cs.new }
    ensures leaves { Leaves result (S.System.stored cs.old) (S.System.stored cs.new) }
{
    no_answer(call(&statement, cs))
}

/// A call on numbers.
#[inline(always)]
pub(crate) fn call_on_numbers<F: Field, S: System<F>>(
    cs: &mut S,
    gadget: FpCall,
) -> Result<Answers, GadgetFault>
    ensures does { Ran (whole (run F.Field.modulus (a_number (number_call_script F.Field.modulus gadget)))) (S.System.meaning cs.old) (over listed result) (S.System.meaning cs.new) }
    ensures adds { Adds S.System.meaning S.System.stored S.System.knows cs.old cs.new }
    ensures leaves { Leaves result (S.System.stored cs.old) (S.System.stored cs.new) }
{
    one_number(call(&gadget, cs))
}

/// A question on numbers.
#[inline(always)]
pub(crate) fn ask_of_numbers<F: Field, S: System<F>>(
    cs: &mut S,
    question: FpQuestion,
) -> Result<Answers, GadgetFault>
    ensures does { Ran (whole (run F.Field.modulus (a_bit (question_script F.Field.modulus question)))) (S.System.meaning cs.old) (over listed result) (S.System.meaning cs.new) }
    ensures adds { Adds S.System.meaning S.System.stored S.System.knows cs.old cs.new }
    ensures leaves { Leaves result (S.System.stored cs.old) (S.System.stored cs.new) }
{
    one_bit(call(&question, cs))
}

/// A statement on numbers.
#[inline(always)]
pub(crate) fn state_of_numbers<F: Field, S: System<F>>(
    cs: &mut S,
    statement: FpStatement,
) -> Result<Answers, GadgetFault>
    ensures does { Ran (whole (run F.Field.modulus (nothing (number_statement_script F.Field.modulus statement)))) (S.System.meaning cs.old) (over listed result) (S.System.meaning cs.new) }
    ensures adds { Adds S.System.meaning S.System.stored S.System.knows cs.old cs.new }
    ensures leaves { Leaves result (S.System.stored cs.old) (S.System.stored cs.new) }
{
    no_answer(call(&statement, cs))
}

/// One command: accepted or refused as the rules decide. A refusal leaves the system, its words and the book as they were; and where a
/// run has come to this circuit, the command is the run's next, with all that runs promise.
pub fn execute<F: Field, S: System<F>>(
    circuit: &mut Circuit<S>,
    command: Command,
) -> Result<(), TapeFault>
    ensures does { executed F.Field.modulus command (state_of S.System.meaning circuit.old) ≡ (result, state_of S.System.meaning circuit.new) }
    ensures adds { Adds S.System.meaning S.System.stored S.System.knows circuit.old.system circuit.new.system }
    ensures leaves { Leaves result (S.System.stored circuit.old.system) (S.System.stored circuit.new.system) }
    ensures unchanged { Unchanged result (state_of S.System.meaning circuit.old) (state_of S.System.meaning circuit.new) }
    ensures runs { (h : History) → Running F.Field.modulus h (state_of S.System.meaning circuit.old) → Stepped F.Field.modulus h command (state_of S.System.meaning circuit.old) (state_of S.System.meaning circuit.new) result }
{
    let places = circuit.book.places();
    check(command, &circuit.book, places)?;
    let answers = perform(&mut circuit.system, command, &circuit.book)?;
    // No refusal comes from here: the check has found places for all answers.
    circuit.book.extend(answers.as_slice())
}
