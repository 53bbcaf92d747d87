ghost use Rattle.std.specs.Prelude.{◌≡◌, ℕ};
ghost use Rattle.relations.specs.Meaning.{Ran, Adds};
ghost use Rattle.relations.specs.Script.{Script, run};
ghost use Rattle.boolean.specs.Booleans.{as_var};
ghost use Rattle.fp.specs.Equality.{is_eq_script as same_script, is_neq_script as differ_script};
ghost use Rattle.fp_var.specs.Numbers.{beside, is_eq_script, is_neq_script};

use crate::numbers::FpVar;
use crate::pieces::constant_lc;
use crate::residues::same;
use boolean::Boolean;
use field::Field;
use fp::AllocatedFp;
use relations::{GadgetFault, System};

/// Whether two variables are equal.
fn equals<F: Field, S: System<F>>(
    x: AllocatedFp,
    y: AllocatedFp,
    cs: &mut S,
) -> Result<Boolean, GadgetFault>
    ensures does { Ran (run F.Field.modulus (as_var (same_script F.Field.modulus x.variable y.variable))) (S.System.meaning cs.old) result (S.System.meaning cs.new) }
    ensures adds { Adds S.System.meaning S.System.stored S.System.knows cs.old cs.new }
{
    x.is_eq_steps(y, cs).map(Boolean::Var)
}

/// Whether two variables are not equal.
fn differs<F: Field, S: System<F>>(
    x: AllocatedFp,
    y: AllocatedFp,
    cs: &mut S,
) -> Result<Boolean, GadgetFault>
    ensures does { Ran (run F.Field.modulus (as_var (differ_script F.Field.modulus x.variable y.variable))) (S.System.meaning cs.old) result (S.System.meaning cs.new) }
    ensures adds { Adds S.System.meaning S.System.stored S.System.knows cs.old cs.new }
{
    x.is_neq_steps(y, cs).map(Boolean::Var)
}

/// Whether a constant, as a combination, and a variable are equal.
fn constant_equals<F: Field, S: System<F>>(
    c: u32,
    v: AllocatedFp,
    cs: &mut S,
) -> Result<Boolean, GadgetFault>
    ensures does { Ran (run F.Field.modulus (beside c v.variable (λ x y. as_var (same_script F.Field.modulus x y)))) (S.System.meaning cs.old) result (S.System.meaning cs.new) }
    ensures adds { Adds S.System.meaning S.System.stored S.System.knows cs.old cs.new }
{
    let x = constant_lc(c, cs)?;
    equals(AllocatedFp::named(x), v, cs)
}

/// Whether a constant, as a combination, and a variable are not equal.
fn constant_differs<F: Field, S: System<F>>(
    c: u32,
    v: AllocatedFp,
    cs: &mut S,
) -> Result<Boolean, GadgetFault>
    ensures does { Ran (run F.Field.modulus (beside c v.variable (λ x y. as_var (differ_script F.Field.modulus x y)))) (S.System.meaning cs.old) result (S.System.meaning cs.new) }
    ensures adds { Adds S.System.meaning S.System.stored S.System.knows cs.old cs.new }
{
    let x = constant_lc(c, cs)?;
    differs(AllocatedFp::named(x), v, cs)
}

impl FpVar {
    /// The steps of whether two numbers are equal.
    pub(crate) fn equality<F: Field, S: System<F>>(
        self,
        other: FpVar,
        cs: &mut S,
    ) -> Result<Boolean, GadgetFault>
        ensures does { Ran (run F.Field.modulus (is_eq_script F.Field.modulus self other)) (S.System.meaning cs.old) result (S.System.meaning cs.new) }
        ensures adds { Adds S.System.meaning S.System.stored S.System.knows cs.old cs.new }
    {
        match (self, other) {
            (FpVar::Constant(a), FpVar::Constant(b)) => Ok(Boolean::Constant(same::<F>(a, b))),
            (FpVar::Constant(a), FpVar::Var(b)) => constant_equals(a, b, cs),
            (FpVar::Var(a), FpVar::Constant(b)) => constant_equals(b, a, cs),
            (FpVar::Var(a), FpVar::Var(b)) => equals(a, b, cs),
        }
    }

    /// The steps of whether two numbers are not equal.
    pub fn is_neq_steps<F: Field, S: System<F>>(
        self,
        other: FpVar,
        cs: &mut S,
    ) -> Result<Boolean, GadgetFault>
        ensures does { Ran (run F.Field.modulus (is_neq_script F.Field.modulus self other)) (S.System.meaning cs.old) result (S.System.meaning cs.new) }
        ensures adds { Adds S.System.meaning S.System.stored S.System.knows cs.old cs.new }
    {
        match (self, other) {
            (FpVar::Constant(a), FpVar::Constant(b)) => Ok(Boolean::Constant(!same::<F>(a, b))),
            (FpVar::Constant(a), FpVar::Var(b)) => constant_differs(a, b, cs),
            (FpVar::Var(a), FpVar::Constant(b)) => constant_differs(b, a, cs),
            (FpVar::Var(a), FpVar::Var(b)) => differs(a, b, cs),
        }
    }
}
