// A tape's run from nothing, and its text.
#![tactic(auto)]

ghost use Rattle.std.specs.Prelude.{◌≡◌, string_bytes, MatchResult};
ghost use Rattle.printing.specs.declared.PrintFault.TheVariants.{Open as unopened, Memory as wanting};
ghost use Rattle.printing.specs.Printed.{Printed, Refuses};

use boolean::Boolean;
use command::Answer;
use field::Field;
use report::report;
use std::alloc::{AllocError, Global};
use systems::{OpenFault, Rooms, open};
use tape::{Book, Circuit, run};

/// Why there is no text: the system is not opened, or memory is wanting.
#[derive(Clone, Copy)]
pub enum PrintFault {
    Open(OpenFault),
    Memory,
}

impl From<AllocError> for PrintFault {
    ghost from_gives = { λ _ r. r ≡ wanting };

    fn from(fault: AllocError) -> PrintFault {
        PrintFault::Memory
    }
}

impl From<OpenFault> for PrintFault {
    ghost from_gives = { λ f r. r ≡ unopened f };

    fn from(fault: OpenFault) -> PrintFault {
        PrintFault::Open(fault)
    }
}

/// Runs at most `most` commands of a tape, from an empty system with these rooms that keeps values and an empty book with so
/// many places, at most 4,096, and gives the text of the run.
pub fn print<F: Field>(
    heap: Global,
    rooms: Rooms,
    places: usize,
    most: u32,
    tape: &[u8],
) -> Result<String, PrintFault>
    ensures { MatchResult result (λ text. Printed F.Field.modulus rooms places most tape.now (string_bytes text)) (Refuses rooms) }
{
    let mut values = vec![in heap; 0; rooms.inputs as usize + rooms.witnesses as usize]?;
    let mut terms = vec![in heap; 0; 2 * rooms.terms as usize]?;
    let mut rows = vec![in heap; 0; 6 * rooms.rows as usize]?;
    let mut answers = vec![in heap; Answer::Bit(Boolean::Constant(false)); places]?;
    let mut refused = Vec::new(heap);
    let system = open::<F>(rooms, &mut values, &mut terms, &mut rows)?;
    let book = Book::new(&mut answers);
    let mut circuit = Circuit { system, book };
    run(&mut circuit, tape, most, &mut refused)?;
    Ok(report(heap, &refused, &circuit.system)?)
}
