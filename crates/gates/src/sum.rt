ghost use Rattle.std.specs.Prelude.{◌≡◌, ℕ, ◌≤◌, length};
ghost use Rattle.relations.specs.Meaning.{Ran, Adds};
ghost use Rattle.relations.specs.Script.{Script, run};
ghost use Rattle.gates.specs.Kary.{chain_from, topped, sum_script, compared};

use crate::members::MOST_MEMBERS;
use crate::wide::{Wide, ones};
use boolean::{AllocatedBool, Boolean, Gate};
use field::Field;
use fp::AllocatedFp;
use relations::{GadgetFault, System, Variable, just, times};

/// The steps of a chain of gates: each bit with what came before it.
pub(crate) fn chain_from<F: Field, S: System<F>>(
    gate: Gate,
    first: Boolean,
    rest: &[Boolean],
    cs: &mut S,
) -> Result<Boolean, GadgetFault>
    ensures does { Ran (run F.Field.modulus (chain_from gate F.Field.modulus first rest.now)) (S.System.meaning cs.old) result (S.System.meaning cs.new) }
    ensures adds { Adds S.System.meaning S.System.stored S.System.knows cs.old cs.new }
{
    let mut joined = first;
    for bit in rest {
        joined = joined.gate_steps(gate, *bit, cs)?;
    }
    Ok(joined)
}

/// A variable with a constant added to it, unless that is 0.
fn add_constant<F: Field, S: System<F>>(
    variable: Variable,
    constant: u32,
    cs: &mut S,
) -> Result<Variable, GadgetFault>
    ensures does { Ran (run F.Field.modulus (topped constant variable)) (S.System.meaning cs.old) result (S.System.meaning cs.new) }
    ensures adds { Adds S.System.meaning S.System.stored S.System.knows cs.old cs.new }
{
    if constant == 0 {
        return Ok(variable);
    }
    Ok(cs.new_lc(&[times(1, variable), times(constant, Variable::One)])?)
}

/// The steps of the sum of some bits: a combination for each variable, the sum of these, and the constant ones added to it.
pub(crate) fn sum<F: Field, S: System<F>>(
    bits: &[Boolean],
    cs: &mut S,
) -> Result<Variable, GadgetFault>
    requires { length bits.now ≤ MOST_MEMBERS }
    ensures does { Ran (run F.Field.modulus (sum_script bits.now)) (S.System.meaning cs.old) result (S.System.meaning cs.new) }
    ensures adds { Adds S.System.meaning S.System.stored S.System.knows cs.old cs.new }
{
    let mut terms = [times(0, Variable::Zero); MOST_MEMBERS];
    let mut count = 0;
    for bit in bits {
        let Boolean::Var(a) = *bit else {
            continue;
        };
        terms[count] = times(1, cs.new_lc(&just(a.variable()))?);
        count += 1;
    }
    let total = cs.new_lc(&terms[..count])?;
    add_constant(total, ones(bits) as u32, cs)
}

/// The steps of a sum's comparison: all of so many members are one where the sum is their number, some are where it is not 0.
pub(crate) fn compare<F: Field, S: System<F>>(
    gate: Wide,
    members: u32,
    total: Variable,
    cs: &mut S,
) -> Result<AllocatedBool, GadgetFault>
    ensures does { Ran (run F.Field.modulus (compared gate F.Field.modulus members total)) (S.System.meaning cs.old) result (S.System.meaning cs.new) }
    ensures adds { Adds S.System.meaning S.System.stored S.System.knows cs.old cs.new }
{
    match gate {
        Wide::And => {
            let all = cs.new_lc(&[times(members, Variable::One)])?;
            AllocatedFp::named(all).is_eq_steps(AllocatedFp::named(total), cs)
        }
        Wide::Or => {
            let none = cs.new_lc(&[])?;
            AllocatedFp::named(none).is_neq_steps(AllocatedFp::named(total), cs)
        }
    }
}
