// What a watch knows, as the system below it grows and is cut.
use crate::steps::{ACCEPTED, Step, cut, follow, rooms, take};
use field::F101;
use layers::{Quota, Watch};
use relations::{Side, System, Variable};
use std::process::Abort;
use std::test::Fail;
use systems::open;

/// Takes steps that are accepted, and behind each the watch has to know what stands beside it.
fn look<S: System<F101>>(
    rt: &impl Abort,
    watch: &mut Watch<F101, S>,
    steps: &[(Step, Option<u32>)],
) {
    for (step, want) in steps {
        assert_eq!(rt; take(watch, *step), ACCEPTED);
        assert_eq!(rt; watch.first_unmet(), *want);
    }
}

// The mark is drawn behind row 0. Of the rows that it cuts, 1 and 3 are not met.
#[test]
fn a_watch_finds_and_forgets(rt: HostRuntime) -> Result<(), Fail> {
    let mut values = [0; 2];
    let mut terms = [0; 48];
    let mut words = [0; 36];
    let Ok(mut system) = open::<F101>(rooms(24, 6), &mut values, &mut terms, &mut words) else {
        return Err(Fail::new("not opened"));
    };
    follow(&rt, &mut system, &[(Step::Met, ACCEPTED)]);
    let between = system.mark();
    follow(
        &rt,
        &mut system,
        &[
            (Step::Unmet, ACCEPTED),
            (Step::Met, ACCEPTED),
            (Step::Unmet, ACCEPTED),
        ],
    );
    let mut watch = Watch::new(system);
    assert_eq!(rt; watch.first_unmet(), Some(1));
    look(
        &rt,
        &mut watch,
        &[(Step::Unmet, Some(1)), (Step::Met, Some(1))],
    );
    assert_eq!(rt; cut(&mut watch, between), ACCEPTED);
    look(
        &rt,
        &mut watch,
        &[(Step::Met, None), (Step::Unmet, Some(2))],
    );
    assert_eq!(rt; watch.below().row_count(), 3);
    Ok(())
}

// A witness of value 0 makes its row unmet, and a cut between the row before and that row forgets it.
#[test]
fn a_watch_judges_each_new_row(rt: HostRuntime) -> Result<(), Fail> {
    let mut values = [0; 2];
    let mut terms = [0; 48];
    let mut words = [0; 36];
    let Ok(system) = open::<F101>(rooms(24, 6), &mut values, &mut terms, &mut words) else {
        return Err(Fail::new("not opened"));
    };
    let mut watch = Watch::new(system);
    let witness = Step::Naming(Variable::Witness(0));
    look(
        &rt,
        &mut watch,
        &[(Step::New(Side::Witness, Some(0)), None), (Step::Met, None)],
    );
    let before = watch.mark();
    look(
        &rt,
        &mut watch,
        &[(witness, Some(1)), (Step::Combination, Some(1))],
    );
    let behind = watch.mark();
    look(
        &rt,
        &mut watch,
        &[
            (Step::New(Side::Input, Some(1)), Some(1)),
            (Step::Unmet, Some(1)),
        ],
    );
    assert_eq!(rt; cut(&mut watch, behind), ACCEPTED);
    assert_eq!(rt; watch.first_unmet(), Some(1));
    assert_eq!(rt; cut(&mut watch, before), ACCEPTED);
    look(&rt, &mut watch, &[(Step::Met, None), (witness, Some(2))]);
    let below = watch.into_inner();
    assert_eq!(rt; below.row_count(), 3);
    Ok(())
}

#[test]
fn a_watch_stands_under_a_quota_and_over_one(rt: HostRuntime) -> Result<(), Fail> {
    for over in [false, true] {
        let mut values = [0; 2];
        let mut terms = [0; 48];
        let mut words = [0; 36];
        let Ok(system) = open::<F101>(rooms(24, 6), &mut values, &mut terms, &mut words) else {
            return Err(Fail::new("not opened"));
        };
        let steps = [
            (Step::Met, ACCEPTED),
            (Step::Unmet, ACCEPTED),
            (Step::Unmet, (12, 4)),
        ];
        let first = if over {
            let mut pile = Quota::new(2, Watch::new(system));
            follow(&rt, &mut pile, &steps);
            pile.below().first_unmet()
        } else {
            let mut pile = Watch::new(Quota::new(2, system));
            follow(&rt, &mut pile, &steps);
            pile.first_unmet()
        };
        assert_eq!(rt; first, Some(1));
    }
    Ok(())
}
