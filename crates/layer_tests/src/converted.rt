// A system that is opened over one type of elements and taken as one over another type with the same prime, and back.
ghost use Rattle.std.specs.Prelude.{◌≡◌, MatchOption};
ghost use Rattle.field.specs.Primes.{prime_101};
ghost use Rattle.relations.specs.Meaning.{Ran, enforce};
ghost use Rattle.systems.specs.Held.{meant_by};

use crate::steps::{ACCEPTED, Step, cut, follow, rooms};
use field::{F7, F101, Field, IsPrime, Residue};
use layers::Converted;
use montgomery::F2013265921;
use relations::{Side, System, SystemFault, Term, Variable, just};
use std::mem;
use std::process::Abort;
use std::test::Fail;
use systems::{Rooms, Valued, Verdict, open};

/// Vouches for the prime 101 in the place of the field's own type, and so makes a second type of elements of it.
struct Ours;

impl IsPrime<101> for Ours {
    ghost vouched = { prime_101 };
}

type Other = Residue<101, Ours>;

// A witness x by one type and a witness y by the other, both 13, with the rows y × 1 = x, which is met, and y × x = x, which is not. One of the
// types stores 13 in another form.
#[test]
fn two_types_of_elements_share_a_system(rt: HostRuntime) -> Result<(), Fail> {
    let mut values = [0; 4];
    let mut terms = [0; 32];
    let mut words = [0; 24];
    let rooms = Rooms {
        inputs: 1,
        witnesses: 3,
        terms: 16,
        rows: 4,
    };
    let one = just(Variable::One);
    let Ok(mut system) = open::<F2013265921>(rooms, &mut values, &mut terms, &mut words) else {
        return Err(Fail::new("not opened"));
    };
    let Ok(x) = system.new_variable(Side::Witness, Some(F2013265921::from_number(13))) else {
        return Err(Fail::new("no first witness"));
    };
    let Ok(mut plain) = Converted::<F2013265921, Residue<2013265921>, _>::new(system) else {
        return Err(Fail::new("one prime"));
    };
    let Ok(Some(told)) = plain.value(x) else {
        return Err(Fail::new("no value over the other type"));
    };
    assert_eq!(rt; told.to_number(), 13);
    let Ok(y) = plain.new_variable(Side::Witness, Some(told)) else {
        return Err(Fail::new("no second witness"));
    };
    assert!(rt; plain.enforce_constraint(&just(y), &one, &just(x)).is_ok());
    assert_eq!(rt; plain.is_met(0), Some(true));
    let mut system = plain.into_inner();
    let Ok(Some(kept)) = system.value(y) else {
        return Err(Fail::new("no value over the first type"));
    };
    assert_eq!(rt; kept.to_number(), 13);
    let (first, second) = (just(x), just(y));
    assert!(rt; system.enforce_constraint(&second, &first, &first).is_ok());
    assert!(rt; matches!(system.verdict(), Verdict::Unmet(1)));
    Ok(())
}

/// What a system of one witness, one combination and two rows is asked, and told.
const STEPS: [(Step, (u32, u32)); 11] = [
    (Step::Value(Variable::Witness(0)), (2, 3)),
    (Step::New(Side::Witness, None), (5, 3)),
    (Step::New(Side::Witness, Some(100)), ACCEPTED),
    (Step::New(Side::Witness, Some(1)), (8, 3)),
    (Step::Value(Variable::Witness(0)), ACCEPTED),
    (Step::Combination, ACCEPTED),
    (Step::Naming(Variable::Witness(1)), (2, 3)),
    (Step::Admits(Variable::Witness(0)), ACCEPTED),
    (Step::Met, ACCEPTED),
    (Step::Unmet, ACCEPTED),
    (Step::Met, (10, 3)),
];

/// Takes the steps, looks at the value and the rows that they leave, and cuts all of it.
fn asked<S: System<F101>>(rt: &impl Abort, system: &mut S) {
    let empty = system.mark();
    follow(rt, system, &STEPS);
    let kept = system.value(Variable::Witness(0)).unwrap_or(None);
    assert_eq!(rt; kept.map(F101::to_number), Some(100));
    assert_eq!(rt;
        (system.row_count(), system.is_met(0), system.is_met(1)),
        (2, Some(true), Some(false))
    );
    assert_eq!(rt; cut(system, empty), ACCEPTED);
    assert_eq!(rt; system.row_count(), 0);
}

#[test]
fn a_converted_system_takes_and_refuses_what_a_bare_one_does(rt: HostRuntime) -> Result<(), Fail> {
    let mut values = [0; 2];
    let mut terms = [0; 32];
    let mut words = [0; 12];
    let Ok(mut bare) = open::<F101>(rooms(16, 2), &mut values, &mut terms, &mut words) else {
        return Err(Fail::new("not opened"));
    };
    asked(&rt, &mut bare);
    let mut values = [0; 2];
    let mut terms = [0; 32];
    let mut words = [0; 12];
    let Ok(below) = open::<Other>(rooms(16, 2), &mut values, &mut terms, &mut words) else {
        return Err(Fail::new("not opened"));
    };
    let Ok(mut over) = Converted::<Other, F101, _>::new(below) else {
        return Err(Fail::new("one prime"));
    };
    asked(&rt, &mut over);
    Ok(())
}

/// A system with no room, which stands for one that is taken out of its place for a while.
const NOTHING: Rooms = Rooms {
    inputs: 0,
    witnesses: 0,
    terms: 0,
    rows: 0,
};

/// A row by code over G on a system over F that it is lent: the system is taken out of its place, and put back. Where there is no answer, as with other
/// primes, the system is as it was.
fn lent_row<'a, F: Field, G: Field>(
    cs: &mut Valued<'a, F>,
    a: &[Term],
    b: &[Term],
    c: &[Term],
) -> Option<Result<(), SystemFault>>
    ensures { MatchOption result (cs.new ≡ cs.old) (λ r. Ran (enforce G.Field.modulus a.now b.now c.now) (meant_by cs.old) r (meant_by cs.new)) }
{
    let Ok(nothing) = open::<F>(NOTHING, &mut [], &mut [], &mut []) else {
        return None;
    };
    match Converted::<F, G, Valued<'a, F>>::new(mem::replace(cs, nothing)) {
        Ok(mut over) => {
            let told = over.enforce_constraint(a, b, c);
            *cs = over.into_inner();
            Some(told)
        }
        Err(system) => {
            *cs = system;
            None
        }
    }
}

#[test]
fn a_lent_system_takes_rows_over_another_type(rt: HostRuntime) -> Result<(), Fail> {
    let mut values = [0; 2];
    let mut terms = [0; 32];
    let mut words = [0; 12];
    let one = just(Variable::One);
    let Ok(mut system) = open::<F101>(rooms(16, 2), &mut values, &mut terms, &mut words) else {
        return Err(Fail::new("not opened"));
    };
    assert!(rt;
        matches!(
            lent_row::<F101, Other>(&mut system, &one, &one, &one),
            Some(Ok(()))
        )
    );
    assert!(rt; lent_row::<F101, F7>(&mut system, &one, &one, &one).is_none());
    assert_eq!(rt; system.row_count(), 1);
    Ok(())
}

#[test]
fn another_prime_gives_the_system_back(rt: HostRuntime) -> Result<(), Fail> {
    let mut values = [0; 2];
    let mut terms = [0; 32];
    let mut words = [0; 12];
    let Ok(mut system) = open::<F101>(rooms(16, 2), &mut values, &mut terms, &mut words) else {
        return Err(Fail::new("not opened"));
    };
    follow(&rt, &mut system, &[(Step::Met, ACCEPTED)]);
    let Err(system) = Converted::<F101, F7, _>::new(system) else {
        return Err(Fail::new("two primes"));
    };
    assert_eq!(rt; system.row_count(), 1);
    Ok(())
}
