// Tapes over piles of layers: where their room is equal they take and refuse the same, and a quota that bites is told in place of a
// full row room.
use boolean::Boolean;
use command::{Answer, Refused};
use field::F101;
use layers::{Quota, Watch};
use relations::System;
use std::alloc::{AllocError, Global};
use std::test::Fail;
use systems::{Rooms, open};
use tape::{Book, Circuit, run};

/// What a run leaves to compare: how many rows there are, and the text of the refusals.
#[derive(Drop)]
struct Played {
    rows: u32,
    refused: String,
}

/// Runs a tape on an empty system of any kind.
fn play<S: System<F101> + Drop>(
    heap: Global,
    system: S,
    tape: &[u8],
) -> Result<Played, AllocError> {
    let mut answers = [Answer::Bit(Boolean::Constant(false)); 9];
    let mut refusals = Vec::new(heap);
    let book = Book::new(&mut answers);
    let mut circuit = Circuit { system, book };
    run(&mut circuit, tape, 99, &mut refusals)?;
    let mut refused = String::new(heap);
    for refusal in &refusals {
        refused.push_str(&format!(in heap; "{refusal}; ")?)?;
    }
    Ok(Played {
        rows: circuit.system.row_count(),
        refused,
    })
}

/// Two witnesses, their and, or and xor, an operand that is not there, a not, and one more witness: six rows where there is room.
const GATES: &[u8] = &[
    1, 2, 1, 1, 2, 0, 17, 0, 0, 1, 0, 18, 0, 0, 1, 0, 19, 0, 0, 1, 0, 17, 9, 0, 0, 0, 16, 2, 0, 1,
    2, 1,
];

/// An input without a value, a constant, an input, its not, the xor of both, and an unknown opcode: one row where there is room.
const INPUTS: &[u8] = &[1, 1, 2, 1, 0, 1, 1, 1, 1, 16, 1, 0, 19, 0, 0, 1, 0, 99];

/// The piles of layers over a system that keeps values.
#[derive(Clone, Copy)]
enum Pile {
    Bare,
    Quota(u32),
    Watched(u32),
    Stacked(u32, u32),
}

/// Runs a tape over a pile, with so much room for rows at the bottom.
fn play_pile(
    heap: Global,
    pile: Pile,
    rows: u32,
    tape: &[u8],
) -> Result<Option<Played>, AllocError> {
    let mut values = [0; 16];
    let mut terms = [0; 128];
    let mut words = [0; 54];
    let rooms = Rooms {
        inputs: 8,
        witnesses: 8,
        terms: 64,
        rows,
    };
    let Ok(system) = open::<F101>(rooms, &mut values, &mut terms, &mut words) else {
        return Ok(None);
    };
    let played = match pile {
        Pile::Bare => play(heap, system, tape)?,
        Pile::Quota(limit) => play(heap, Quota::new(limit, system), tape)?,
        Pile::Watched(limit) => play(heap, Watch::new(Quota::new(limit, system)), tape)?,
        Pile::Stacked(limit, upper) => play(
            heap,
            Quota::new(upper, Watch::new(Quota::new(limit, system))),
            tape,
        )?,
    };
    Ok(Some(played))
}

/// A pile, the room for rows at its bottom, a tape, how many rows there are then, and the refusals.
type Entry<'a> = (Pile, u32, &'a [u8], u32, &'a str);

const TABLE: &[Entry<'static>] = &[
    // Room for all rows, and for one more.
    (Pile::Bare, 6, GATES, 6, "refused 5 2 1; "),
    (Pile::Bare, 7, GATES, 6, "refused 5 2 1; "),
    (Pile::Quota(6), 9, GATES, 6, "refused 5 2 1; "),
    (Pile::Watched(6), 9, GATES, 6, "refused 5 2 1; "),
    (Pile::Stacked(7, 6), 9, GATES, 6, "refused 5 2 1; "),
    // One row too few, from below.
    (Pile::Bare, 5, GATES, 5, "refused 5 2 1; refused 7 10 3; "),
    (
        Pile::Quota(6),
        5,
        GATES,
        5,
        "refused 5 2 1; refused 7 10 3; ",
    ),
    (
        Pile::Watched(6),
        5,
        GATES,
        5,
        "refused 5 2 1; refused 7 10 3; ",
    ),
    (
        Pile::Stacked(9, 6),
        5,
        GATES,
        5,
        "refused 5 2 1; refused 7 10 3; ",
    ),
    // One row too few, under a limit.
    (
        Pile::Quota(5),
        5,
        GATES,
        5,
        "refused 5 2 1; refused 7 12 4; ",
    ),
    (
        Pile::Quota(5),
        9,
        GATES,
        5,
        "refused 5 2 1; refused 7 12 4; ",
    ),
    (
        Pile::Watched(5),
        9,
        GATES,
        5,
        "refused 5 2 1; refused 7 12 4; ",
    ),
    (
        Pile::Stacked(5, 9),
        9,
        GATES,
        5,
        "refused 5 2 1; refused 7 12 4; ",
    ),
    (
        Pile::Stacked(9, 5),
        9,
        GATES,
        5,
        "refused 5 2 1; refused 7 12 4; ",
    ),
    // The row, and none: what names the input is then refused too.
    (Pile::Bare, 1, INPUTS, 1, "refused 0 5 3; refused 5 1 1; "),
    (
        Pile::Stacked(1, 1),
        9,
        INPUTS,
        1,
        "refused 0 5 3; refused 5 1 1; ",
    ),
    (
        Pile::Bare,
        0,
        INPUTS,
        0,
        "refused 0 5 3; refused 2 10 3; refused 3 2 1; refused 4 2 1; refused 5 1 1; ",
    ),
    (
        Pile::Stacked(1, 2),
        0,
        INPUTS,
        0,
        "refused 0 5 3; refused 2 10 3; refused 3 2 1; refused 4 2 1; refused 5 1 1; ",
    ),
    (
        Pile::Quota(0),
        9,
        INPUTS,
        0,
        "refused 0 5 3; refused 2 12 4; refused 3 2 1; refused 4 2 1; refused 5 1 1; ",
    ),
    (
        Pile::Stacked(0, 2),
        9,
        INPUTS,
        0,
        "refused 0 5 3; refused 2 12 4; refused 3 2 1; refused 4 2 1; refused 5 1 1; ",
    ),
];

#[test]
fn piles_of_equal_room_take_and_refuse_the_same(rt: HostRuntime) -> Result<(), Fail> {
    for (pile, room, tape, rows, refused) in TABLE {
        let Some(played) = play_pile(rt.alloc(), *pile, *room, tape)? else {
            return Err(Fail::new("not opened"));
        };
        assert_eq!(rt; played.rows, *rows, "rows in a room of {room}");
        assert_eq!(rt; played.refused.as_str(), *refused);
    }
    Ok(())
}
