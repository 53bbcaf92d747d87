// Tapes over the system that keeps no values, bare and under layers, beside the one that keeps them.
use crate::lent::{both, lend};
use boolean::Boolean;
use command::{Answer, Refused};
use field::F101;
use layers::{Quota, Watch};
use relations::System;
use std::alloc::{AllocError, Global};
use std::process::Abort;
use std::test::Fail;
use systems::{Counts, Rooms};
use tape::{Book, Circuit, run};

const ROOMS: Rooms = Rooms {
    inputs: 3,
    witnesses: 6,
    terms: 30,
    rows: 5,
};

// Tapes whose values are there: bits of each mode, gates and statements over them, operands that are not there, and rooms that run full.
const TAPES: [&[u8]; 5] = [
    &[],
    &[1, 2, 1, 1, 2, 0, 0x11, 0, 0, 1, 0],
    &[
        1, 1, 1, 1, 2, 0, 0x10, 0, 0, 0x12, 2, 0, 1, 0, 0x13, 3, 0, 0, 0, 0x11, 9, 0, 0, 0,
    ],
    &[
        1, 1, 1, 1, 1, 0, 1, 1, 1, 1, 1, 0, 1, 0, 1, 0x13, 0, 0, 3, 0,
    ],
    &[
        1, 2, 1, 1, 2, 1, 1, 2, 0, 1, 2, 1, 1, 2, 0, 1, 2, 1, 1, 2, 0, 0x11, 0, 0, 1, 0, 0xff,
    ],
];

// Runs a tape from an empty book, and gives what is refused, and the system.
fn ran<S: System<F101> + Drop>(
    heap: Global,
    system: S,
    tape: &[u8],
) -> Result<(S, Vec<Refused>), AllocError> {
    let mut answers = [Answer::Bit(Boolean::Constant(false)); 16];
    let mut refused = Vec::new(heap);
    let book = Book::new(&mut answers);
    let mut circuit = Circuit { system, book };
    run(&mut circuit, tape, 99, &mut refused)?;
    let Circuit { system, book: _ } = circuit;
    Ok((system, refused))
}

// The same commands are refused, with the same numbers by the same layers.
fn same_refusals(rt: &impl Abort, mine: &[Refused], its: &[Refused]) {
    assert_eq!(rt; mine.len(), its.len());
    for (x, y) in mine.iter().zip(its) {
        assert_eq!(rt; x.command, y.command);
        assert_eq!(rt; x.refusal.number, y.refusal.number);
        assert_eq!(rt; x.refusal.layer, y.refusal.layer);
    }
}

fn same_counts(rt: &impl Abort, mine: Counts, its: Counts) {
    assert_eq!(rt; mine.inputs, its.inputs);
    assert_eq!(rt; mine.witnesses, its.witnesses);
    assert_eq!(rt; mine.combinations, its.combinations);
    assert_eq!(rt; mine.rows, its.rows);
}

#[test]
fn bare(rt: HostRuntime) -> Result<(), Fail> {
    for tape in TAPES {
        let mut words = lend(rt.alloc(), ROOMS)?;
        let Ok((valued, setup)) = both(ROOMS, &mut words) else {
            return Err(Fail::new("not opened"));
        };
        let (valued, mine) = ran(rt.alloc(), valued, tape)?;
        let (setup, its) = ran(rt.alloc(), setup, tape)?;
        same_refusals(&rt, &mine, &its);
        same_counts(&rt, valued.counts(), setup.counts());
    }
    Ok(())
}

#[test]
fn under_a_quota(rt: HostRuntime) -> Result<(), Fail> {
    for tape in TAPES {
        let mut words = lend(rt.alloc(), ROOMS)?;
        let Ok((valued, setup)) = both(ROOMS, &mut words) else {
            return Err(Fail::new("not opened"));
        };
        let (valued, mine) = ran(rt.alloc(), Quota::new(2, valued), tape)?;
        let (setup, its) = ran(rt.alloc(), Quota::new(2, setup), tape)?;
        same_refusals(&rt, &mine, &its);
        same_counts(&rt, valued.below().counts(), setup.below().counts());
    }
    Ok(())
}

#[test]
fn under_a_watch_and_a_quota(rt: HostRuntime) -> Result<(), Fail> {
    for tape in TAPES {
        let mut words = lend(rt.alloc(), ROOMS)?;
        let Ok((valued, setup)) = both(ROOMS, &mut words) else {
            return Err(Fail::new("not opened"));
        };
        let (valued, mine) = ran(rt.alloc(), Watch::new(Quota::new(3, valued)), tape)?;
        let (setup, its) = ran(rt.alloc(), Watch::new(Quota::new(3, setup)), tape)?;
        same_refusals(&rt, &mine, &its);
        same_counts(
            &rt,
            valued.below().below().counts(),
            setup.below().below().counts(),
        );
        assert!(rt; setup.first_unmet().is_none());
    }
    Ok(())
}

// A witness bit without its value, and the bit's not: refused where values are kept, accepted where they are not.
#[test]
fn a_bit_without_a_value(rt: HostRuntime) -> Result<(), Fail> {
    let tape = [1, 2, 2, 0x10, 0, 0];
    let mut words = lend(rt.alloc(), ROOMS)?;
    let Ok((valued, setup)) = both(ROOMS, &mut words) else {
        return Err(Fail::new("not opened"));
    };
    let (valued, mine) = ran(rt.alloc(), valued, &tape)?;
    let (setup, its) = ran(rt.alloc(), setup, &tape)?;
    assert_eq!(rt; mine.len(), 2);
    assert_eq!(rt; its.len(), 0);
    assert_eq!(rt; valued.counts().rows, 0);
    assert_eq!(rt; setup.counts().rows, 1);
    assert_eq!(rt; setup.counts().combinations, 1);
    Ok(())
}
