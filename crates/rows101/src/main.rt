// Reads a tape from standard input, runs it over the field with 101 elements, and prints the text of the run.
#![tactic(auto)]

use field::F101;
use printing::{PrintFault, print};
use std::io;
use std::io::{ErrorKind, Read};
use systems::Rooms;

/// The rooms of the system.
const ROOMS: Rooms = Rooms {
    inputs: 1024,
    witnesses: 1024,
    terms: 1024,
    rows: 1024,
};

fn main(rt: HostRuntime) -> io::Result<()> {
    let heap = rt.alloc();
    let mut tape = Vec::new(heap);
    rt.stdin().take(4096).read_to_end(&mut tape)?;
    match print::<F101>(heap, ROOMS, 4096, 4096, &tape) {
        Ok(text) => rt.print(text),
        Err(PrintFault::Memory) => Err(ErrorKind::OutOfMemory.into()),
        Err(PrintFault::Open(_)) => Err(ErrorKind::InvalidInput.into()),
    }
}
