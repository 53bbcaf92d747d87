// Prints the text of a table of tapes over small rooms and books: each refusal that a command can meet, on both sides of its limit. What it
// must print stands in the file stdout.
#![tactic(auto)]

use field::{F7, F101, Field};
use printing::print;
use std::io;
use systems::Rooms;

/// Rooms for all that a tape of the table asks for.
const ALL: Rooms = Rooms {
    inputs: 9,
    witnesses: 9,
    terms: 99,
    rows: 9,
};

/// A row of the table: what it shows, the rooms of the system, the places of the book, and the tape.
#[derive(Clone, Copy)]
struct Entry<'a> {
    shows: &'a str,
    rooms: Rooms,
    places: usize,
    tape: &'a [u8],
}

/// A row of a table.
fn row<'a>(shows: &'a str, rooms: Rooms, places: usize, tape: &'a [u8]) -> Entry<'a> {
    Entry {
        shows,
        rooms,
        places,
        tape,
    }
}

/// Prints what a row of the table shows, and the text of its run over a field.
fn show<F: Field>(rt: &HostRuntime, entry: Entry<'_>) -> io::Result<()> {
    let Entry {
        shows,
        rooms,
        places,
        tape,
    } = entry;
    println!(rt; "-- {shows}")?;
    match print::<F>(rt.alloc(), rooms, places, 4096, tape) {
        Ok(text) => rt.print(text),
        Err(_) => println!(rt; "not opened"),
    }
}

/// Shows each row of a table over a field.
fn show_all<F: Field>(rt: &HostRuntime, table: &[Entry<'_>]) -> io::Result<()> {
    for entry in table {
        show::<F>(rt, *entry)?;
    }
    Ok(())
}

fn main(rt: HostRuntime) -> io::Result<()> {
    operands(&rt)?;
    full_rooms(&rt)?;
    many_bits(&rt)?;
    numbers(&rt)?;
    equal_numbers(&rt)?;
    as_many_as_the_prime(&rt)
}

/// Commands that are unknown or cut off, and unfit operands and values.
fn operands(rt: &HostRuntime) -> io::Result<()> {
    show_all::<F101>(
        rt,
        &[
            row("an opcode that is not served", ALL, 9, &[1, 2, 1, 7, 0, 0]),
            row("a command that is cut off", ALL, 9, &[1, 2]),
            row(
                "an operand that is not there, and going on",
                ALL,
                9,
                &[16, 0, 0, 1, 2, 1, 16, 0, 0],
            ),
            row(
                "a mode and a value that do not exist",
                ALL,
                9,
                &[1, 3, 0, 1, 0, 3, 1, 1, 1],
            ),
            row(
                "absent values",
                ALL,
                9,
                &[1, 0, 2, 1, 1, 2, 1, 2, 2, 1, 2, 0],
            ),
        ],
    )
}

/// Rooms and books that are full.
fn full_rooms(rt: &HostRuntime) -> io::Result<()> {
    show_all::<F101>(
        rt,
        &[
            row(
                "inputs that find no room",
                Rooms { inputs: 1, ..ALL },
                9,
                &[1, 1, 0, 1, 1, 1],
            ),
            row(
                "witnesses that find no room",
                Rooms {
                    witnesses: 1,
                    ..ALL
                },
                9,
                &[1, 2, 0, 1, 2, 1],
            ),
            row(
                "rows that find no room",
                Rooms { rows: 1, ..ALL },
                9,
                &[1, 2, 0, 1, 2, 1],
            ),
            row(
                "terms that find no room",
                Rooms { terms: 5, ..ALL },
                9,
                &[1, 2, 0, 1, 2, 1],
            ),
            row(
                "a book with no place left",
                ALL,
                1,
                &[1, 2, 0, 1, 2, 1, 3, 0, 0],
            ),
            row("an operand before a place", ALL, 1, &[1, 2, 0, 16, 9, 0]),
            row(
                "a xor a with the terms that it takes",
                Rooms { terms: 7, ..ALL },
                9,
                &[1, 2, 1, 19, 0, 0, 0, 0],
            ),
            row(
                "a xor a with one term less",
                Rooms { terms: 6, ..ALL },
                9,
                &[1, 2, 1, 19, 0, 0, 0, 0],
            ),
            row(
                "a room that is too large",
                Rooms {
                    inputs: 65537,
                    ..ALL
                },
                9,
                &[],
            ),
        ],
    )
}

/// Lengths, statements on constants, and statements where the book is full.
fn many_bits(rt: &HostRuntime) -> io::Result<()> {
    show_all::<F101>(
        rt,
        &[
            row(
                "a gate of no members, of which none is looked for",
                ALL,
                9,
                &[1, 0, 1, 20, 9, 0, 0],
            ),
            row(
                "members that are not there",
                ALL,
                9,
                &[1, 0, 1, 20, 0, 0, 2],
            ),
            row(
                "too many members, which are not there",
                ALL,
                9,
                &[1, 0, 1, 20, 0, 0, 65],
            ),
            row(
                "a bound of more bits than are given",
                ALL,
                9,
                &[1, 0, 1, 52, 0, 0, 1, 2, 0, 0, 0, 0, 0, 0, 0],
            ),
            row(
                "a bound of 0 on no bits",
                ALL,
                9,
                &[52, 0, 0, 0, 0, 0, 0, 0, 0, 0, 0, 0],
            ),
            row(
                "a statement that constants break",
                ALL,
                9,
                &[1, 0, 1, 1, 0, 0, 26, 0, 0, 1, 0, 0, 0],
            ),
            row(
                "the same where the condition is 0",
                ALL,
                9,
                &[1, 0, 1, 1, 0, 0, 26, 0, 0, 1, 0, 1, 0],
            ),
            row(
                "the same under a variable",
                ALL,
                9,
                &[1, 0, 1, 1, 0, 0, 1, 2, 0, 26, 0, 0, 1, 0, 2, 0],
            ),
            row(
                "a statement with a full book",
                ALL,
                1,
                &[1, 2, 1, 27, 0, 0, 0, 0, 0, 0],
            ),
            row(
                "all of some ones, which are stated not to be",
                ALL,
                9,
                &[1, 0, 1, 23, 0, 0, 1],
            ),
            row(
                "a choice that finds no room for its row",
                Rooms { rows: 3, ..ALL },
                9,
                &[1, 2, 1, 1, 2, 0, 1, 2, 1, 25, 0, 0, 1, 0, 2, 0],
            ),
        ],
    )
}

/// Numbers: their values and kinds, inverses, and statements on constants.
fn numbers(rt: &HostRuntime) -> io::Result<()> {
    show_all::<F101>(
        rt,
        &[
            row(
                "numbers without a value, as a constant and as a witness",
                ALL,
                9,
                &[
                    2, 0, 0, 5, 0, 0, 0, 0, 0, 0, 0, 2, 2, 0, 5, 0, 0, 0, 0, 0, 0, 0,
                ],
            ),
            row(
                "a mode that does not exist, and a value that is neither there nor absent",
                ALL,
                9,
                &[
                    2, 3, 1, 5, 0, 0, 0, 0, 0, 0, 0, 2, 2, 2, 5, 0, 0, 0, 0, 0, 0, 0,
                ],
            ),
            row(
                "a number that is cut off",
                ALL,
                9,
                &[2, 2, 1, 5, 0, 0, 0, 0, 0, 0],
            ),
            row(
                "a bit where a number is wanted, and a number where a bit is",
                ALL,
                9,
                &[
                    1, 2, 1, 32, 0, 0, 0, 0, 2, 2, 1, 5, 0, 0, 0, 0, 0, 0, 0, 17, 0, 0, 1, 0, 45,
                    1, 0,
                ],
            ),
            row(
                "the inverse of the constant 0",
                ALL,
                9,
                &[2, 0, 1, 0, 0, 0, 0, 0, 0, 0, 0, 37, 0, 0],
            ),
            row(
                "the inverse of a variable 0",
                ALL,
                9,
                &[2, 2, 1, 0, 0, 0, 0, 0, 0, 0, 0, 37, 0, 0],
            ),
            row(
                "2 times 3 is 5, of constants",
                ALL,
                9,
                &[
                    2, 0, 1, 2, 0, 0, 0, 0, 0, 0, 0, 2, 0, 1, 3, 0, 0, 0, 0, 0, 0, 0, 2, 0, 1, 5,
                    0, 0, 0, 0, 0, 0, 0, 38, 0, 0, 1, 0, 2, 0,
                ],
            ),
            row(
                "a square that is another number, of constants",
                ALL,
                9,
                &[
                    2, 0, 1, 2, 0, 0, 0, 0, 0, 0, 0, 2, 0, 1, 3, 0, 0, 0, 0, 0, 0, 0, 39, 0, 0, 1,
                    0,
                ],
            ),
        ],
    )
}

/// Equal numbers that are stated to differ where a condition is one: the room of the witness, and then its value.
fn equal_numbers(rt: &HostRuntime) -> io::Result<()> {
    const PAIR: [u8; 32] = [
        2, 2, 1, 5, 0, 0, 0, 0, 0, 0, 0, 2, 2, 1, 5, 0, 0, 0, 0, 0, 0, 0, 1, 0, 1, 43, 0, 0, 1, 0,
        2, 0,
    ];
    const BESIDE: [u8; 32] = [
        2, 0, 1, 5, 0, 0, 0, 0, 0, 0, 0, 2, 2, 1, 5, 0, 0, 0, 0, 0, 0, 0, 1, 0, 1, 43, 0, 0, 1, 0,
        2, 0,
    ];
    show_all::<F101>(
        rt,
        &[
            row("two variables", ALL, 9, &PAIR),
            row(
                "two variables, and no room for the witness",
                Rooms {
                    witnesses: 2,
                    ..ALL
                },
                9,
                &PAIR,
            ),
            row("a constant and a variable", ALL, 9, &BESIDE),
            row(
                "a constant and a variable, and no room for the witness",
                Rooms {
                    witnesses: 1,
                    ..ALL
                },
                9,
                &BESIDE,
            ),
            row(
                "a constant and a variable, and no room for the constant's combination",
                Rooms {
                    witnesses: 1,
                    terms: 1,
                    ..ALL
                },
                9,
                &BESIDE,
            ),
            row(
                "two variables where the condition is 0",
                ALL,
                9,
                &[
                    2, 2, 1, 5, 0, 0, 0, 0, 0, 0, 0, 2, 2, 1, 5, 0, 0, 0, 0, 0, 0, 0, 1, 2, 0, 43,
                    0, 0, 1, 0, 2, 0,
                ],
            ),
        ],
    )
}

/// Gates of nearly as many members as the field has elements, and of as many.
fn as_many_as_the_prime(rt: &HostRuntime) -> io::Result<()> {
    show_all::<F7>(
        rt,
        &[
            row(
                "six members over 7",
                ALL,
                9,
                &[
                    1, 2, 1, 1, 2, 1, 1, 2, 1, 1, 2, 1, 1, 2, 1, 1, 2, 1, 20, 0, 0, 6,
                ],
            ),
            row(
                "seven members over 7",
                ALL,
                9,
                &[
                    1, 2, 1, 1, 2, 1, 1, 2, 1, 1, 2, 1, 1, 2, 1, 1, 2, 1, 1, 2, 1, 20, 0, 0, 7,
                ],
            ),
            row(
                "seven constants over 7",
                ALL,
                9,
                &[
                    1, 0, 1, 3, 0, 0, 3, 0, 0, 3, 0, 0, 3, 0, 0, 3, 0, 0, 3, 0, 0, 21, 0, 0, 7,
                ],
            ),
        ],
    )
}
