ghost use Rattle.std.specs.Prelude.{◌≡◌, []};
ghost use Rattle.relations.specs.Meaning.{Adds, Fresh};
ghost use Rattle.readings.specs.Runs.{History, Running};
ghost use Rattle.tape.specs.Book.{held_by};
ghost use Rattle.tape.specs.State.{state_of};
ghost use Rattle.tape.specs.Tape.{Next, Taped};

use crate::circuit::Circuit;
use crate::executing::execute;
use command::{Refused, TapeFault, decode};
use field::Field;
use relations::System;
use std::alloc::AllocError;

/// One command of the rest of a tape. It answers how many bytes the command took, or none where it is unknown or cut off; a refusal is noted
/// under the command's number.
fn next_command<F: Field, S: System<F>>(
    circuit: &mut Circuit<S>,
    rest: &[u8],
    number: u32,
    refused: &mut Vec<Refused>,
) -> Result<Option<usize>, AllocError>
    ensures adds { Adds S.System.meaning S.System.stored S.System.knows circuit.old.system circuit.new.system }
    ensures does { Next F.Field.modulus rest.now number (state_of S.System.meaning circuit.old) (state_of S.System.meaning circuit.new) result refused.old.items refused.new.items }
{
    refused.reserve(1)?;
    let Some(next) = decode(rest) else {
        refused.push_reserved(Refused::new(number, TapeFault::Unknown));
        return Ok(None);
    };
    if let Err(fault) = execute(circuit, next.command) {
        refused.push_reserved(Refused::new(number, fault));
    }
    Ok(Some(next.length))
}

/// A run of a tape, of at most so many of its commands: each is accepted or refused as the rules decide, and a command that is unknown or cut
/// off ends the run. It answers how many commands were decided, and notes the refusals. Where memory for a refusal is wanting it stops
/// before the next command.
pub fn run<F: Field, S: System<F>>(
    circuit: &mut Circuit<S>,
    tape: &[u8],
    most: u32,
    refused: &mut Vec<Refused>,
) -> Result<u32, AllocError>
    ensures adds { Adds S.System.meaning S.System.stored S.System.knows circuit.old.system circuit.new.system }
    ensures runs { (g : History) → Running F.Field.modulus g (state_of S.System.meaning circuit.old) → Taped F.Field.modulus most tape.now g (state_of S.System.meaning circuit.old) (state_of S.System.meaning circuit.new) result refused.old.items refused.new.items }
    ensures fresh { Fresh (S.System.meaning circuit.old.system) → held_by circuit.old.book ≡ [] → Taped F.Field.modulus most tape.now [] (state_of S.System.meaning circuit.old) (state_of S.System.meaning circuit.new) result refused.old.items refused.new.items }
{
    let mut rest = tape;
    for number in 0..most {
        if rest.is_empty() {
            return Ok(number);
        }
        let Some(length) = next_command(circuit, rest, number, refused)? else {
            return Ok(number);
        };
        rest = &rest[length..];
    }
    Ok(most)
}
