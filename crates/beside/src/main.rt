// Runs the tapes of the list in data/, and holds what comes of each to the text that stands below it: what the Rust crate makes of that
// tape, or where the two differ on purpose, what this repository's rules make of it. beside/make.py makes the list; its head says how.
#![tactic(auto)]

mod answers;
mod block;
mod fault;
mod rows;
mod trial;

use block::Block;
use fault::Fault;
use field::{F3, F7, F101, F4294967291};
use field29::F29;
use hex::FromHexError;
use montgomery::F2013265921;
use std::alloc::{AllocError, Global};
use std::{fs, io};
use trial::text_of;

/// How many blocks of a file are printed where they are not as expected.
const SHOWN: u32 = 3;

/// What this repository makes of a block's tape, in the block's words.
fn found(heap: Global, block: Block) -> Result<String, Fault> {
    let tape = match hex::decode(heap, block.digits) {
        Ok(tape) => tape,
        Err(FromHexError::OutOfMemory) => return Err(Fault::Memory),
        Err(_) => return Err(Fault::NoTape),
    };
    match block.prime {
        "3" => text_of::<F3>(heap, block.mode, &tape),
        "7" => text_of::<F7>(heap, block.mode, &tape),
        "29" => text_of::<F29>(heap, block.mode, &tape),
        "101" => text_of::<F101>(heap, block.mode, &tape),
        "2013265921" => text_of::<F2013265921>(heap, block.mode, &tape),
        "4294967291" => text_of::<F4294967291>(heap, block.mode, &tape),
        _ => Err(Fault::NoTape),
    }
}

/// How many blocks of a file are as expected, how many of those show a difference on purpose, and how many are not as expected.
#[derive(Clone, Copy)]
struct Tally {
    right: u32,
    differing: u32,
    wrong: u32,
}

impl Tally {
    /// Counts a block.
    fn count(&mut self, right: bool, differing: bool) {
        if right {
            self.right = self.right.saturating_add(1);
        } else {
            self.wrong = self.wrong.saturating_add(1);
        }
        if right && differing {
            self.differing = self.differing.saturating_add(1);
        }
    }
}

/// Runs a block's tape and counts it, and prints it if it is one of the first that are not as expected.
fn try_block(rt: &HostRuntime, heap: Global, text: &str, tally: &mut Tally) -> io::Result<()> {
    let Some(block) = Block::new(text) else {
        tally.count(false, false);
        return println!(rt; "no block: {text}");
    };
    let found = match found(heap, block) {
        Ok(found) => found,
        Err(Fault::Memory) => return Err(AllocError.into()),
        Err(_) => String::new(heap),
    };
    let right = found.as_str() == block.text;
    tally.count(right, block.differs);
    if !right && tally.wrong <= SHOWN {
        println!(rt; "not as expected: {text}but: {found}")?;
    }
    Ok(())
}

/// Runs the tapes of a file, and prints how many are as expected. What begins with `#` is a comment.
fn replay(rt: &HostRuntime, heap: Global, file: &str) -> io::Result<()> {
    let all = fs::read_to_string(rt, file)?;
    let mut tally = Tally {
        right: 0,
        differing: 0,
        wrong: 0,
    };
    for text in all.as_str().split_terminator("---\n") {
        if !text.starts_with("#") {
            try_block(rt, heap, text, &mut tally)?;
        }
    }
    let Tally {
        right,
        differing,
        wrong,
    } = tally;
    println!(rt;
        "{file}: {right} tapes as expected, {differing} of them with a difference on purpose; {wrong} not"
    )
}

fn main(rt: HostRuntime) -> io::Result<()> {
    let heap = rt.alloc();
    replay(&rt, heap, "one-and-two-bits.txt")?;
    replay(&rt, heap, "choices-and-statements.txt")?;
    replay(&rt, heap, "gates-and-or.txt")?;
    replay(&rt, heap, "gates-nand.txt")?;
    replay(&rt, heap, "bounds.txt")?;
    replay(&rt, heap, "numbers-arithmetic.txt")?;
    replay(&rt, heap, "numbers-products.txt")?;
    replay(&rt, heap, "numbers-squares-and-choices.txt")?;
    replay(&rt, heap, "numbers-equality.txt")?;
    replay(&rt, heap, "numbers-inequality.txt")
}
