// Runs each tape of data/rows.txt over every served field and one of another crate, and holds the text to the lines that stand below it. There the
// coefficients are signed numbers, which are the same for all primes: each field reads them modulo its own. The file was made from the vectors over
// 101 of `replay` by writing 100 as -1 and 99 as -2.
#![tactic(auto)]

use field::{F3, F7, F101, F4294967291, Field};
use field29::F29;
use hex::FromHexError;
use montgomery::F2013265921;
use printing::print;
use std::alloc::{AllocError, Global};
use std::fmt::Write;
use std::{fs, io};
use systems::Rooms;

/// The rooms of the system.
const ROOMS: Rooms = Rooms {
    inputs: 1024,
    witnesses: 1024,
    terms: 1024,
    rows: 1024,
};

/// Appends a term, its signed coefficient read modulo the field's prime; what is no term is appended as it is.
fn push_term<F: Field>(text: &mut String, term: &str) -> Result<(), AllocError> {
    let Some((digits, name)) = term.split_once(" ") else {
        return text.push_str(term);
    };
    match digits.parse::<i64>() {
        Ok(v) => write!(text, "{} {name}", F::from_i64(v).to_number()),
        Err(_) => text.push_str(term),
    }
}

/// Appends one of the sums of a row.
fn push_sum<F: Field>(text: &mut String, sum: &str) -> Result<(), AllocError> {
    let mut first = true;
    for term in sum.split(" + ") {
        if !first {
            text.push_str(" + ")?;
        }
        first = false;
        push_term::<F>(text, term)?;
    }
    Ok(())
}

/// Appends a line: a row, whose sums stand between semicolons, or one that is the same over every field.
fn push_line<F: Field>(text: &mut String, line: &str) -> Result<(), AllocError> {
    if line.contains(" ; ") {
        let mut first = true;
        for sum in line.split(" ; ") {
            if !first {
                text.push_str(" ; ")?;
            }
            first = false;
            push_sum::<F>(text, sum)?;
        }
    } else {
        text.push_str(line)?;
    }
    text.push_str("\n")
}

/// The text that is expected over a field.
fn expected<F: Field>(heap: Global, lines: &str) -> Result<String, AllocError> {
    let mut text = String::new(heap);
    for line in lines.split_terminator("\n") {
        push_line::<F>(&mut text, line)?;
    }
    Ok(text)
}

/// Whether a block's tape gives the text below it.
fn agrees<F: Field>(heap: Global, block: &str) -> Result<bool, AllocError> {
    let Some((head, lines)) = block.split_once("\n") else {
        return Ok(false);
    };
    let Some(digits) = head.strip_prefix("tape ") else {
        return Ok(false);
    };
    let tape = match hex::decode(heap, digits) {
        Ok(tape) => tape,
        Err(FromHexError::OutOfMemory) => return Err(AllocError),
        Err(_) => return Ok(false),
    };
    let wanted = expected::<F>(heap, lines)?;
    match print::<F>(heap, ROOMS, 4096, 4096, &tape) {
        Ok(found) => Ok(found.as_str() == wanted.as_str()),
        Err(_) => Ok(false),
    }
}

/// Runs all tapes over a field, and prints how many give what is expected.
fn run_all<F: Field>(rt: &HostRuntime, heap: Global, blocks: &str) -> io::Result<()> {
    let mut right: u32 = 0;
    let mut wrong: u32 = 0;
    for block in blocks.split_terminator("---\n") {
        if agrees::<F>(heap, block)? {
            right = right.saturating_add(1);
        } else {
            wrong = wrong.saturating_add(1);
        }
    }
    println!(rt;
        "{}: {right} tapes as expected, {wrong} not",
        F::characteristic()
    )
}

fn main(rt: HostRuntime) -> io::Result<()> {
    let heap = rt.alloc();
    let all = fs::read_to_string(&rt, "rows.txt")?;
    let blocks = all.as_str();
    run_all::<F3>(&rt, heap, blocks)?;
    run_all::<F7>(&rt, heap, blocks)?;
    run_all::<F29>(&rt, heap, blocks)?;
    run_all::<F101>(&rt, heap, blocks)?;
    run_all::<F4294967291>(&rt, heap, blocks)?;
    run_all::<F2013265921>(&rt, heap, blocks)
}
