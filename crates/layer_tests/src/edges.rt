// Each refusal of a system under layers, at its exact edge and one beyond.
use crate::steps::{ACCEPTED, Step, Told, cut, follow, rooms, take};
use field::F101;
use layers::{Quota, Watch};
use relations::{Side, System, Variable};
use std::test::Fail;
use systems::open;

/// How many rows a system takes, and what the next one is told.
fn fill<S: System<F101> + Drop>(mut system: S) -> (u32, Told) {
    for _ in 0..9 {
        let told = take(&mut system, Step::Met);
        if told.0 != 0 {
            return (system.row_count(), told);
        }
    }
    (system.row_count(), ACCEPTED)
}

/// The row room, the limits of a lower and an upper quota; then how many rows are taken, and what the next one is told.
const TABLE: [(u32, u32, u32, u32, Told); 9] = [
    (4, 9, 9, 4, (10, 3)),
    (4, 3, 9, 3, (12, 4)),
    (4, 9, 3, 3, (12, 4)),
    (4, 2, 3, 2, (12, 4)),
    (4, 3, 2, 2, (12, 4)),
    (4, 4, 9, 4, (12, 4)),
    (4, 9, 4, 4, (12, 4)),
    (4, 5, 5, 4, (10, 3)),
    (4, 0, 1, 0, (12, 4)),
];

#[test]
fn the_smallest_of_limits_and_room_holds(rt: HostRuntime) -> Result<(), Fail> {
    for (room, lower, upper, rows, want) in TABLE {
        let mut values = [0; 2];
        let mut terms = [0; 32];
        let mut words = [0; 24];
        let Ok(system) = open::<F101>(rooms(16, room), &mut values, &mut terms, &mut words) else {
            return Err(Fail::new("not opened"));
        };
        let (taken, told) = fill(Quota::new(upper, Watch::new(Quota::new(lower, system))));
        assert_eq!(rt; taken, rows, "rows under {lower} and {upper}");
        assert_eq!(rt; told, want, "refusal under {lower} and {upper}");
    }
    Ok(())
}

/// Six terms and two rows, under a limit of one row.
const BEHIND: [(Step, Told); 9] = [
    (Step::Naming(Variable::Witness(0)), (2, 3)),
    (Step::Met, ACCEPTED),
    (Step::Met, (12, 4)),
    (Step::Naming(Variable::Witness(0)), (2, 3)),
    (Step::Combination, ACCEPTED),
    (Step::Unmet, (12, 4)),
    (Step::Met, (9, 3)),
    (Step::Admits(Variable::Zero), ACCEPTED),
    (Step::Admits(Variable::One), (9, 3)),
];

#[test]
fn a_used_up_limit_comes_behind_variables_and_terms(rt: HostRuntime) -> Result<(), Fail> {
    let mut values = [0; 2];
    let mut terms = [0; 12];
    let mut words = [0; 12];
    let Ok(system) = open::<F101>(rooms(6, 2), &mut values, &mut terms, &mut words) else {
        return Err(Fail::new("not opened"));
    };
    let mut quota = Quota::new(1, system);
    follow(&rt, &mut quota, &BEHIND);
    assert_eq!(rt; (quota.limit(), quota.below().row_count()), (1, 1));
    // The system below has room for the row that the limit refuses.
    let mut below = quota.into_inner();
    follow(
        &rt,
        &mut below,
        &[(Step::Unmet, ACCEPTED), (Step::Unmet, (9, 3))],
    );
    Ok(())
}

/// One input, one witness, and the rows that name them.
const VARIABLES: [(Step, Told); 11] = [
    (Step::New(Side::Input, None), (5, 3)),
    (Step::Value(Variable::Input(0)), (2, 3)),
    (Step::New(Side::Input, Some(1)), ACCEPTED),
    (Step::New(Side::Input, None), (8, 3)),
    (Step::Naming(Variable::Input(0)), ACCEPTED),
    (Step::Naming(Variable::Input(1)), (2, 3)),
    (Step::New(Side::Witness, None), (5, 3)),
    (Step::New(Side::Witness, Some(1)), ACCEPTED),
    (Step::New(Side::Witness, Some(1)), (8, 3)),
    (Step::Value(Variable::Witness(0)), ACCEPTED),
    (Step::Admits(Variable::Witness(1)), (2, 3)),
];

#[test]
fn variables_are_refused_as_below(rt: HostRuntime) -> Result<(), Fail> {
    let mut values = [0; 2];
    let mut terms = [0; 24];
    let mut words = [0; 24];
    let Ok(system) = open::<F101>(rooms(12, 4), &mut values, &mut terms, &mut words) else {
        return Err(Fail::new("not opened"));
    };
    let mut pile = Watch::new(Quota::new(3, system));
    follow(&rt, &mut pile, &VARIABLES);
    assert_eq!(rt; pile.row_count(), 1);
    Ok(())
}

#[test]
fn a_quota_may_find_more_rows_than_its_limit(rt: HostRuntime) -> Result<(), Fail> {
    let mut values = [0; 2];
    let mut terms = [0; 32];
    let mut words = [0; 24];
    let Ok(mut system) = open::<F101>(rooms(16, 4), &mut values, &mut terms, &mut words) else {
        return Err(Fail::new("not opened"));
    };
    let start = system.mark();
    follow(&rt, &mut system, &[(Step::Met, ACCEPTED); 3]);
    let longer = system.mark();
    let mut quota = Quota::new(1, system);
    follow(&rt, &mut quota, &[(Step::Met, (12, 4))]);
    assert_eq!(rt; quota.row_count(), 3);
    assert_eq!(rt; cut(&mut quota, start), ACCEPTED);
    // Now the lists are shorter than the other mark.
    assert_eq!(rt; cut(&mut quota, longer), (13, 3));
    follow(
        &rt,
        &mut quota,
        &[(Step::Met, ACCEPTED), (Step::Met, (12, 4))],
    );
    Ok(())
}

#[test]
fn a_mark_is_spent_either_way(rt: HostRuntime) -> Result<(), Fail> {
    let mut values = [0; 2];
    let mut terms = [0; 32];
    let mut words = [0; 24];
    let Ok(system) = open::<F101>(rooms(16, 4), &mut values, &mut terms, &mut words) else {
        return Err(Fail::new("not opened"));
    };
    let mut pile = Quota::new(3, Watch::new(system));
    let kept = pile.mark();
    follow(&rt, &mut pile, &[(Step::Unmet, ACCEPTED)]);
    pile.keep(kept);
    assert_eq!(rt; pile.row_count(), 1);
    let as_long = pile.mark();
    assert_eq!(rt; cut(&mut pile, as_long), ACCEPTED);
    assert_eq!(rt; pile.below().first_unmet(), Some(0));
    Ok(())
}
