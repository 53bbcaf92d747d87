// Fills a system of rows and combinations, again and again. bench/system.sh times it: `system_bench STEPS ROUNDS` opens a system, adds STEPS times a
// witness, its row and a combination, asks for the last combination's value, and does so ROUNDS times. Without arguments it fills one small system, and
// times nothing: that is what the gate runs.
#![tactic(auto)]

use field::{F101, Field};
use relations::{Side, System, SystemFault, Variable, just, one_less, times};
use std::alloc::Global;
use std::io::ErrorKind;
use std::{env, io};
use systems::{Rooms, open};

/// The rooms of a system: the most that there can be.
const ROOMS: Rooms = Rooms {
    inputs: 65536,
    witnesses: 65536,
    terms: 65536,
    rows: 65536,
};

/// Adds so many witnesses, each with the row that makes it a bit and a combination of it and the one before, and tells the last combination's value.
fn filled<F: Field, S: System<F>>(cs: &mut S, steps: u32) -> Result<u32, SystemFault> {
    let mut last = Variable::One;
    for i in 0..steps {
        let w = cs.new_variable(Side::Witness, Some(F::from_number(i % 2)))?;
        cs.enforce_constraint(&one_less::<F>(w), &just(w), &[])?;
        last = cs.new_lc(&[times(1, last), times(2, w)])?;
    }
    Ok(cs.value(last)?.map_or(0, |x| x.to_number()))
}

/// The sum of what so many fillings tell; 0 for one that is refused.
fn rounds(heap: Global, steps: u32, count: u32) -> io::Result<u32> {
    let mut values = vec![in heap; 0; 131072]?;
    let mut terms = vec![in heap; 0; 131072]?;
    let mut rows = vec![in heap; 0; 393216]?;
    let mut sum: u32 = 0;
    for _ in 0..count {
        let Ok(mut system) = open::<F101>(ROOMS, &mut values, &mut terms, &mut rows) else {
            return Err(ErrorKind::InvalidInput.into());
        };
        let told = filled(&mut system, steps).unwrap_or(0);
        sum = sum.wrapping_add(told);
    }
    Ok(sum)
}

fn show(rt: &HostRuntime, steps: u32, count: u32) -> io::Result<()> {
    let told = rounds(rt.alloc(), steps, count)?;
    println!(rt; "{steps} steps, {count} rounds: {told}")
}

fn main(rt: HostRuntime) -> io::Result<()> {
    let mut words = env::args(&rt)?.skip(1);
    if let (Some(steps), Some(count)) = (words.next(), words.next()) {
        return show(
            &rt,
            steps.as_str().parse().unwrap_or(0),
            count.as_str().parse().unwrap_or(0),
        );
    }
    show(&rt, 100, 2)
}
