// Runs each tape of the files in data/ over the field with 101 elements, as rows101 does, and holds the text to the lines that stand below
// it. A block of such a file is a line `tape` with the bytes in hexadecimal, the expected text, and a line `---`. The blocks were made by a
// program that computes the text from the rules in docs/TAPE.md and docs/CALLS.md, and shares no code with these crates.
#![tactic(auto)]

use field::F101;
use printing::print;
use std::alloc::{AllocError, Global};
use std::{fs, io};
use systems::Rooms;

/// The rooms of the system, as rows101 has them, which as a program exports nothing.
const ROOMS: Rooms = Rooms {
    inputs: 1024,
    witnesses: 1024,
    terms: 1024,
    rows: 1024,
};

/// The digits of a block's tape, and the text below it; none where the block has no tape.
fn parts(block: &str) -> Option<(&str, &str)> {
    let (head, text) = block.split_once("\n")?;
    Some((head.strip_prefix("tape ")?, text))
}

// Not by `hex`, which takes capitals for digits and refuses what is none: a file of blocks is read as it always was.
/// The number of a hexadecimal digit, 0 where it is none.
fn digit(byte: u8) -> u8 {
    match byte {
        b'0'..=b'9' => byte.wrapping_sub(b'0'),
        b'a'..=b'f' => byte.wrapping_sub(b'a').wrapping_add(10),
        _ => 0,
    }
}

/// The bytes that pairs of hexadecimal digits stand for; a digit without a second one is left out.
fn bytes_of(heap: Global, digits: &str) -> Result<Vec<u8>, AllocError> {
    let mut bytes = Vec::new(heap);
    for pair in digits.as_bytes().chunks_exact(2) {
        bytes.push(digit(pair[0]).wrapping_mul(16).wrapping_add(digit(pair[1])))?;
    }
    Ok(bytes)
}

/// Whether a block's tape gives the text below it.
fn agrees(heap: Global, block: &str) -> Result<bool, AllocError> {
    let Some((digits, text)) = parts(block) else {
        return Ok(false);
    };
    match print::<F101>(heap, ROOMS, 4096, 4096, &bytes_of(heap, digits)?) {
        Ok(found) => Ok(found.as_str() == text),
        Err(_) => Ok(false),
    }
}

/// Runs the tapes of a file, and prints how many give what is expected.
fn replay(rt: &HostRuntime, heap: Global, file: &str) -> io::Result<()> {
    let all = fs::read_to_string(rt, file)?;
    let mut right: u32 = 0;
    let mut wrong: u32 = 0;
    for block in all.as_str().split("---\n") {
        if block.is_empty() {
            continue;
        }
        if agrees(heap, block)? {
            right = right.saturating_add(1);
        } else {
            wrong = wrong.saturating_add(1);
            println!(rt; "not as expected: {block}")?;
        }
    }
    println!(rt; "{file}: {right} tapes as expected, {wrong} not")
}

fn main(rt: HostRuntime) -> io::Result<()> {
    let heap = rt.alloc();
    replay(&rt, heap, "first-bits.txt")?;
    replay(&rt, heap, "bits.txt")?;
    replay(&rt, heap, "numbers.txt")
}
