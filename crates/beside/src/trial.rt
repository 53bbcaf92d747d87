ghost use Rattle.std.specs.Prelude.{◌≡◌, ◌≤◌, ◌++◌, ◌-◌, min, length, codes, decimal, string_bytes, OnOk, IfOk};
ghost use Rattle.tape.specs.Book.{held_by};
ghost use Rattle.beside.specs.Lines.{rest_text, left};
ghost use Rattle.beside.specs.Trial.{Tried, lines_of};
ghost use Rattle.systems.specs.Held.{meant_by, shown_by};
ghost use Rattle.tape.specs.State.{state_of};
ghost use Rattle.beside.specs.declared.block.Mode.TheVariants.{Values as values, Setup as setup};

use crate::answers::push_answers;
use crate::block::Mode;
use crate::fault::Fault;
use crate::rows::setup_report;
use boolean::Boolean;
use command::{Answer, Refused};
use field::Field;
use relations::System;
use report::report;
use std::alloc::{AllocError, Global};
use std::fmt::Write;
use systems::{Rooms, Setup, Valued, open, open_setup};
use tape::{Book, Circuit, run};

/// The rooms of the system, which no tape of the list fills.
const ROOMS: Rooms = Rooms {
    inputs: 64,
    witnesses: 256,
    terms: 2048,
    rows: 256,
};

/// The places of the book.
const PLACES: usize = 512;

/// The most commands of a tape.
const MOST: u32 = 4096;

/// How many terms a system has left: as many as the empty combinations that it takes, of which each uses one.
fn terms_left<F: Field, S: System<F>>(system: &mut S) -> u32
    ensures { result ≡ min 2048 (left (S.System.meaning system.old)) }
{
    for count in 0..ROOMS.terms {
        if system.new_lc(&[]).is_err() {
            return count;
        }
    }
    ROOMS.terms
}

/// Appends the answers, and how many combinations there are and terms are used.
fn push_rest<F: Field, S: System<F>>(
    text: &mut String,
    circuit: &mut Circuit<S>,
    combinations: usize,
) -> Result<(), AllocError>
    ensures { OnOk result (string_bytes text.new ≡ string_bytes text.old ++ rest_text (S.System.meaning circuit.old.system) (held_by circuit.old.book) combinations) }
{
    push_answers::<F, S>(text, &circuit.system, &circuit.book)?;
    let terms = ROOMS.terms - terms_left::<F, S>(&mut circuit.system);
    writeln!(text, "combinations {combinations} terms {terms}")
}

/// The text of a run with these refusals, which led to this circuit, on a system that keeps values. The system is filled.
fn valued_lines<F: Field>(
    heap: Global,
    refused: &[Refused],
    circuit: &mut Circuit<Valued<'_, F>>,
) -> Result<String, Fault>
    ensures { IfOk result (λ text. string_bytes text ≡ lines_of values F.Field.modulus refused.now (state_of meant_by circuit.old)) }
{
    let mut text = report(heap, refused, &circuit.system)?;
    let combinations = circuit.system.counts().combinations;
    push_rest::<F, _>(&mut text, circuit, combinations)?;
    Ok(text)
}

/// The same on a system that keeps none.
fn setup_lines<F: Field>(
    heap: Global,
    refused: &[Refused],
    circuit: &mut Circuit<Setup<'_, F>>,
) -> Result<String, Fault>
    ensures { IfOk result (λ text. string_bytes text ≡ lines_of setup F.Field.modulus refused.now (state_of shown_by circuit.old)) }
{
    let mut text = setup_report(heap, refused, &circuit.system)?;
    let combinations = circuit.system.counts().combinations;
    push_rest::<F, _>(&mut text, circuit, combinations)?;
    Ok(text)
}

/// The text of a tape's run from nothing, on a system that keeps values.
fn valued_text<F: Field>(
    heap: Global,
    rooms: Rooms,
    places: usize,
    tape: &[u8],
) -> Result<String, Fault>
    ensures { IfOk result (λ text. Tried values F.Field.modulus rooms places MOST tape.now (string_bytes text)) }
{
    let mut values = vec![in heap; 0; rooms.inputs as usize + rooms.witnesses as usize]?;
    let mut terms = vec![in heap; 0; 2 * rooms.terms as usize]?;
    let mut rows = vec![in heap; 0; 6 * rooms.rows as usize]?;
    let mut answers = vec![in heap; Answer::Bit(Boolean::Constant(false)); places]?;
    let mut refused = Vec::new(heap);
    let system = open::<F>(rooms, &mut values, &mut terms, &mut rows)?;
    let book = Book::new(&mut answers);
    let mut circuit = Circuit { system, book };
    run(&mut circuit, tape, MOST, &mut refused)?;
    let text = valued_lines(heap, &refused, &mut circuit)?;
    Ok(text)
}

/// The same on a system that keeps none.
fn setup_text<F: Field>(
    heap: Global,
    rooms: Rooms,
    places: usize,
    tape: &[u8],
) -> Result<String, Fault>
    ensures { IfOk result (λ text. Tried setup F.Field.modulus rooms places MOST tape.now (string_bytes text)) }
{
    let mut terms = vec![in heap; 0; 2 * rooms.terms as usize]?;
    let mut rows = vec![in heap; 0; 6 * rooms.rows as usize]?;
    let mut answers = vec![in heap; Answer::Bit(Boolean::Constant(false)); places]?;
    let mut refused = Vec::new(heap);
    let system = open_setup::<F>(rooms, &mut terms, &mut rows)?;
    let book = Book::new(&mut answers);
    let mut circuit = Circuit { system, book };
    run(&mut circuit, tape, MOST, &mut refused)?;
    let text = setup_lines(heap, &refused, &mut circuit)?;
    Ok(text)
}

/// The text of a tape's run from nothing.
pub(crate) fn text_of<F: Field>(heap: Global, mode: Mode, tape: &[u8]) -> Result<String, Fault>
    ensures { IfOk result (λ text. Tried mode F.Field.modulus ROOMS PLACES MOST tape.now (string_bytes text)) }
{
    match mode {
        Mode::Values => valued_text::<F>(heap, ROOMS, PLACES, tape),
        Mode::Setup => setup_text::<F>(heap, ROOMS, PLACES, tape),
    }
}
