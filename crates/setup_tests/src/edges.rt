// Each refusal at its limit and one beyond, on both systems.
use crate::lent::{both, lend};
use crate::told::{asked, done, named};
use field::{F101, Field};
use relations::{Mark, Refusal, Side, System, Term, Variable};
use std::process::Abort;
use std::test::Fail;
use systems::{Rooms, open_setup};

const FEW: Rooms = Rooms {
    inputs: 1,
    witnesses: 1,
    terms: 5,
    rows: 1,
};

// ---- opening
// A refusal of opening over these words; nothing where it is opened.
fn opened(rooms: Rooms, terms: &mut [u32], rows: &mut [u32]) -> (u32, u32) {
    match open_setup::<F101>(rooms, terms, rows) {
        Ok(_) => (0, 0),
        Err(fault) => {
            let Refusal { number, layer } = fault.into();
            (number, layer)
        }
    }
}

// Rooms, how many words of terms and of rows are lent, and what opening then answers.
#[derive(Clone, Copy)]
struct Trial {
    rooms: Rooms,
    terms: usize,
    rows: usize,
    answer: (u32, u32),
}

fn over(rooms: Rooms, terms: usize, rows: usize, answer: (u32, u32)) -> Trial {
    Trial {
        rooms,
        terms,
        rows,
        answer,
    }
}

fn wide(inputs: u32, witnesses: u32) -> Rooms {
    Rooms {
        inputs,
        witnesses,
        ..FEW
    }
}

#[test]
fn opening(rt: HostRuntime) -> Result<(), Fail> {
    let many = Rooms {
        terms: 65537,
        ..FEW
    };
    let tall = Rooms { rows: 65537, ..FEW };
    let trials = [
        over(FEW, 10, 6, (0, 0)),
        over(FEW, 9, 6, (9, 3)),
        over(FEW, 10, 5, (10, 3)),
        over(FEW, 9, 5, (9, 3)),
        over(wide(65536, 65536), 10, 6, (0, 0)),
        over(wide(65537, 0), 9, 6, (3, 3)),
        over(wide(0, 65537), 10, 5, (3, 3)),
        over(many, 10, 6, (3, 3)),
        over(tall, 10, 6, (3, 3)),
    ];
    for trial in trials {
        let mut terms = vec![in rt.alloc(); 0; trial.terms]?;
        let mut rows = vec![in rt.alloc(); 0; trial.rows]?;
        assert_eq!(rt; opened(trial.rooms, &mut terms, &mut rows), trial.answer);
    }
    Ok(())
}

// ---- calls
#[derive(Clone, Copy)]
enum Call {
    New(Side, Option<u32>),
    Sum(&'static [Term]),
    Row(&'static [Term], &'static [Term], &'static [Term]),
    Admit(&'static [Term], &'static [Term], &'static [Term]),
    Ask(Variable),
    Rewind(u32, u32, u32, u32),
}

fn rewound<S: System<F101>>(system: &mut S, to: (u32, u32, u32, u32)) -> (u32, u32) {
    let mark = Mark {
        inputs: to.0,
        witnesses: to.1,
        combinations: to.2,
        rows: to.3,
    };
    done(system.rewind(mark))
}

// What a call answers; the number of a value that is told is left out.
fn answer<S: System<F101>>(system: &mut S, call: Call) -> (u32, u32) {
    match call {
        Call::New(side, value) => named(system.new_variable(side, value.map(F101::from_number))),
        Call::Sum(terms) => named(system.new_lc(terms)),
        Call::Row(a, b, c) => done(system.enforce_constraint(a, b, c)),
        Call::Admit(a, b, c) => done(system.admits(a, b, c)),
        Call::Ask(variable) => asked(system.value(variable)),
        Call::Rewind(inputs, witnesses, combinations, rows) => {
            rewound(system, (inputs, witnesses, combinations, rows))
        }
    }
}

fn plays<S: System<F101>>(rt: &impl Abort, system: &mut S, script: &[(Call, (u32, u32))]) {
    for (call, expected) in script {
        assert_eq!(rt; answer(system, *call), *expected);
    }
}

const X: Term = Term {
    coefficient: 1,
    variable: Variable::Input(0),
};

const LESS_X: Term = Term {
    coefficient: 100,
    variable: Variable::Input(0),
};

const Y: Term = Term {
    coefficient: 3,
    variable: Variable::Witness(0),
};

const ONE: Term = Term {
    coefficient: 1,
    variable: Variable::One,
};

const NEW_INPUT: Call = Call::New(Side::Input, Some(1));

const NEW_WITNESS: Call = Call::New(Side::Witness, Some(1));

// What is not there, and the rooms of inputs and witnesses; then the rooms of terms and rows, with five terms free: two for a combination,
// two for a row, one for the heading of an empty one; then marks that do not fit, and some that do.
const LIMITS: [(Call, (u32, u32)); 33] = [
    (Call::Sum(&[X]), (2, 3)),
    (Call::Row(&[], &[], &[X]), (2, 3)),
    (Call::Admit(&[], &[X], &[]), (2, 3)),
    (Call::Ask(Variable::Input(0)), (2, 3)),
    (Call::Ask(Variable::Combination(0)), (2, 3)),
    (NEW_INPUT, (102, 0)),
    (Call::New(Side::Input, None), (8, 3)),
    (NEW_WITNESS, (103, 0)),
    (NEW_WITNESS, (8, 3)),
    (Call::Ask(Variable::Input(1)), (2, 3)),
    (Call::Sum(&[X]), (104, 1)),
    (Call::Sum(&[X, Y, ONE]), (9, 3)),
    (Call::Row(&[X, Y], &[X], &[Y]), (9, 3)),
    (Call::Admit(&[X, Y], &[X], &[X, LESS_X]), (0, 0)),
    (Call::Row(&[X], &[Y], &[X, LESS_X]), (0, 0)),
    (Call::Row(&[], &[X, LESS_X], &[]), (10, 3)),
    (Call::Row(&[X, Y], &[], &[]), (9, 3)),
    (Call::Sum(&[X]), (9, 3)),
    (Call::Sum(&[X, LESS_X]), (104, 2)),
    (Call::Sum(&[]), (9, 3)),
    (Call::Admit(&[X, LESS_X], &[], &[]), (0, 0)),
    (Call::Admit(&[X], &[], &[]), (9, 3)),
    (Call::Rewind(2, 1, 2, 1), (13, 3)),
    (Call::Rewind(1, 2, 2, 1), (13, 3)),
    (Call::Rewind(1, 1, 3, 1), (13, 3)),
    (Call::Rewind(1, 1, 2, 2), (13, 3)),
    (Call::Rewind(0, 1, 2, 1), (13, 3)),
    (Call::Rewind(1, 0, 0, 1), (13, 3)),
    (Call::Rewind(1, 0, 1, 0), (0, 0)),
    (NEW_WITNESS, (103, 0)),
    (Call::Rewind(1, 1, 1, 0), (0, 0)),
    (Call::Rewind(0, 0, 0, 0), (0, 0)),
    (NEW_INPUT, (102, 0)),
];

#[test]
fn limits(rt: HostRuntime) -> Result<(), Fail> {
    let mut words = lend(rt.alloc(), FEW)?;
    let Ok((mut valued, mut setup)) = both(FEW, &mut words) else {
        return Err(Fail::new("not opened"));
    };
    plays(&rt, &mut valued, &LIMITS);
    plays(&rt, &mut setup, &LIMITS);
    Ok(())
}

// Where no values are kept, an absent one is no refusal, and none is told.
const ABSENT: [(Call, (u32, u32)); 8] = [
    (Call::New(Side::Input, None), (102, 0)),
    (NEW_WITNESS, (103, 0)),
    (Call::New(Side::Witness, None), (8, 3)),
    (Call::Sum(&[ONE]), (104, 1)),
    (Call::Ask(Variable::One), (201, 0)),
    (Call::Ask(Variable::Zero), (201, 0)),
    (Call::Ask(Variable::Witness(0)), (201, 0)),
    (Call::Ask(Variable::Combination(1)), (201, 0)),
];

#[test]
fn absent_values(rt: HostRuntime) -> Result<(), Fail> {
    let mut words = lend(rt.alloc(), FEW)?;
    let Ok((mut valued, mut setup)) = both(FEW, &mut words) else {
        return Err(Fail::new("not opened"));
    };
    plays(&rt, &mut valued, &[(Call::New(Side::Input, None), (5, 3))]);
    plays(&rt, &mut setup, &ABSENT);
    Ok(())
}
