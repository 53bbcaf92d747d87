// Fixed sequences of calls on both systems: they answer the same, but for values.
use crate::lent::{both, lend};
use crate::told::{asked, done, named, term};
use field::{F101, Field};
use relations::{Mark, Side, System, Term, Variable};
use std::process::Abort;
use std::test::Fail;
use systems::{Part, Rooms, Setup, Valued};

// The next number of a fixed sequence.
fn next(n: u32) -> u32 {
    (n as u64 * 48271 % 2147483647) as u32
}

// A variable that may be there or not.
fn pick(n: u32) -> Variable {
    let index = n / 5 % 8;
    match n % 5 {
        0 => Variable::One,
        1 => Variable::Zero,
        2 => Variable::Input(index),
        3 => Variable::Witness(index),
        _ => Variable::Combination(n / 5 % 40),
    }
}

// Three terms, some of which may cancel.
fn sum(n: u32) -> [Term; 3] {
    let first = pick(n);
    [
        term(n % 101, first),
        term(next(n) % 101, pick(next(n))),
        term(100 - n % 100, first),
    ]
}

// Adds under a mark, and keeps or rewinds.
fn under_a_mark<S: System<F101>>(system: &mut S, n: u32) -> (u32, u32) {
    let mark = system.mark();
    let first = named(system.new_lc(&sum(n)));
    let _second = system.enforce_constraint(&sum(next(n)), &sum(n), &[]);
    if n % 3 == 0 {
        system.keep(mark);
        first
    } else {
        done(system.rewind(mark))
    }
}

// A mark that was not drawn from this system.
fn foreign(n: u32) -> Mark {
    Mark {
        inputs: n / 3 % 5,
        witnesses: n / 7 % 5,
        combinations: n / 11 % 9,
        rows: n / 13 % 9,
    }
}

fn step<S: System<F101>>(system: &mut S, n: u32) -> (u32, u32) {
    let value = Some(F101::from_number(n));
    match n % 11 {
        0 | 1 => named(system.new_variable(Side::Input, value)),
        2 | 3 => named(system.new_variable(Side::Witness, value)),
        4 | 5 | 6 => named(system.new_lc(&sum(n))),
        7 | 8 => done(system.enforce_constraint(&sum(n), &sum(n / 3), &sum(n / 7))),
        9 => under_a_mark(system, n),
        _ if n % 4 == 0 => done(system.rewind(foreign(n))),
        _ => done(system.admits(&sum(n), &sum(n / 3), &[])),
    }
}

// Whether two buffers hold the same in their first words.
fn same_words(xs: &[u32], ys: &[u32], n: usize) -> bool {
    xs.iter().take(n).eq(ys.iter().take(n))
}

// Both systems have as much, and write each sum out alike.
fn alike(
    rt: &impl Abort,
    valued: &Valued<'_, F101>,
    setup: &Setup<'_, F101>,
    out: &mut [u32],
    other: &mut [u32],
) {
    let (mine, its) = (valued.counts(), setup.counts());
    assert_eq!(rt; mine.inputs, its.inputs);
    assert_eq!(rt; mine.witnesses, its.witnesses);
    assert_eq!(rt; mine.combinations, its.combinations);
    assert_eq!(rt; mine.rows, its.rows);
    assert_eq!(rt; valued.working_words(), setup.working_words());
    let width = 1usize
        .saturating_add(mine.inputs)
        .saturating_add(mine.witnesses);
    for row in 0..mine.rows {
        for part in [Part::A, Part::B, Part::C] {
            assert!(rt; valued.coefficients(row, part, out).is_ok());
            assert!(rt; setup.coefficients(row, part, other).is_ok());
            assert!(rt; same_words(out, other, width));
        }
    }
}

#[test]
fn the_same_calls_on_both(rt: HostRuntime) -> Result<(), Fail> {
    let rooms = Rooms {
        inputs: 5,
        witnesses: 6,
        terms: 90,
        rows: 9,
    };
    let mut words = lend(rt.alloc(), rooms)?;
    let Ok((mut valued, mut setup)) = both(rooms, &mut words) else {
        return Err(Fail::new("not opened"));
    };
    let mut out = [0u32; 128];
    let mut other = [0u32; 128];
    let mut n = 1;
    for _ in 0..400 {
        n = next(n);
        assert_eq!(rt; step(&mut valued, n), step(&mut setup, n));
        let variable = pick(n / 2);
        let (kept, none) = (asked(valued.value(variable)), asked(setup.value(variable)));
        assert!(rt; none == (201, 0) && kept.0 == 200 || none == kept);
        assert!(rt; setup.is_met(n % 9).is_none());
        assert_eq!(rt; valued.row_count(), setup.row_count());
    }
    alike(&rt, &valued, &setup, &mut out, &mut other);
    Ok(())
}

// A chain in which each combination names the two before it.
fn chain<S: System<F101>>(rt: &impl Abort, system: &mut S) -> Variable {
    let mut older = Variable::One;
    let mut newer = Variable::One;
    for k in 0..1000u32 {
        let terms = [term(1, older), term(1, newer)];
        let made = match k {
            0 => system.new_lc(&[term(2, Variable::One)]),
            1 => system.new_lc(&[term(1, Variable::One)]),
            _ => system.new_lc(&terms),
        };
        assert!(rt; made.is_ok());
        older = newer;
        newer = made.unwrap_or(Variable::Zero);
    }
    newer
}

// The thousandth number of 2, 1, 3, 4, 7, .. is 100 modulo 101.
#[test]
fn a_long_chain(rt: HostRuntime) -> Result<(), Fail> {
    let rooms = Rooms {
        inputs: 0,
        witnesses: 0,
        terms: 2999,
        rows: 1,
    };
    let mut words = lend(rt.alloc(), rooms)?;
    let Ok((mut valued, mut setup)) = both(rooms, &mut words) else {
        return Err(Fail::new("not opened"));
    };
    let (last, its) = (chain(&rt, &mut valued), chain(&rt, &mut setup));
    assert_eq!(rt; asked(valued.value(last)), (200, 100));
    assert_eq!(rt; asked(setup.value(its)), (201, 0));
    let row = [term(1, last)];
    assert_eq!(rt; done(valued.enforce_constraint(&row, &[], &[])), (0, 0));
    assert_eq!(rt; done(setup.enforce_constraint(&row, &[], &[])), (0, 0));
    let mut out = vec![in rt.alloc(); 5; valued.working_words()]?;
    assert!(rt; valued.coefficients(0, Part::A, &mut out).is_ok());
    assert_eq!(rt; out.first().copied(), Some(100));
    assert!(rt; setup.coefficients(0, Part::A, &mut out).is_ok());
    assert_eq!(rt; out.first().copied(), Some(100));
    // The term room is full to the last place.
    assert_eq!(rt; done(valued.admits(&row, &[], &[])), (9, 3));
    assert_eq!(rt; done(setup.admits(&row, &[], &[])), (9, 3));
    Ok(())
}
