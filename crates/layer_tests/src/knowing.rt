// What a watch knows stays known over a run of a tape.
ghost use Rattle.std.specs.Prelude.{◌≡◌, IfOk};
ghost use Rattle.relations.specs.Unmet.{first_unmet};

use crate::steps::{ACCEPTED, Step, follow, rooms};
use boolean::Boolean;
use command::{Answer, Refused};
use field::{F101, Field};
use layers::Watch;
use relations::System;
use std::alloc::AllocError;
use std::test::Fail;
use systems::open;
use tape::{Book, Circuit, run};

/// Runs a tape on a system under watch, and asks the watch.
fn run_watched<F: Field, S: System<F>>(
    circuit: &mut Circuit<Watch<F, S>>,
    tape: &[u8],
    refused: &mut Vec<Refused>,
) -> Result<Option<u32>, AllocError>
    ensures { ⟦<Watch<F, S> as System<F>>⟧.knows circuit.old.system → IfOk result (λ row. row ≡ first_unmet F.Field.modulus (⟦<Watch<F, S> as System<F>>⟧.meaning circuit.new.system)) }
{
    run(circuit, tape, 99, refused)?;
    Ok(circuit.system.first_unmet())
}

// A row that is not met stands below; the tape adds one that is.
#[test]
fn a_run_keeps_what_a_watch_knows(rt: HostRuntime) -> Result<(), Fail> {
    let mut values = [0; 2];
    let mut terms = [0; 32];
    let mut words = [0; 24];
    let Ok(mut system) = open::<F101>(rooms(16, 4), &mut values, &mut terms, &mut words) else {
        return Err(Fail::new("not opened"));
    };
    follow(&rt, &mut system, &[(Step::Unmet, ACCEPTED)]);
    let mut answers = [Answer::Bit(Boolean::Constant(false)); 2];
    let mut circuit = Circuit {
        system: Watch::new(system),
        book: Book::new(&mut answers),
    };
    let mut refused = Vec::new(rt.alloc());
    let first = run_watched(&mut circuit, &[1, 2, 1], &mut refused)?;
    assert_eq!(rt; first, Some(0));
    assert_eq!(rt; (circuit.system.row_count(), refused.len()), (2, 0));
    Ok(())
}
