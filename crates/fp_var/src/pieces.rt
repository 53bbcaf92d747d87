ghost use Rattle.std.specs.Prelude.{◌≡◌, ℕ, ◌∷◌};
ghost use Rattle.std.specs.Option.{option_map};
ghost use Rattle.relations.specs.Meaning.{Ran, Adds};
ghost use Rattle.relations.specs.Script.{Script, run};
ghost use Rattle.relations.specs.Terms.{times as times_of, just};
ghost use Rattle.fp_var.specs.declared.numbers.FpVar.TheVariants.{Constant as constant};
ghost use Rattle.fp_var.specs.Numbers.{named as named_as, linear as linear_script, constant_lc as constant_script, reduced, scaled as scaled_script};

use crate::numbers::FpVar;
use field::Field;
use fp::AllocatedFp;
use relations::{GadgetFault, System, Term, Variable, times};

impl FpVar {
    /// The number that a variable stands for.
    pub(crate) fn named(variable: Variable) -> FpVar
        ensures { result ≡ named_as variable }
    {
        FpVar::Var(AllocatedFp::named(variable))
    }

    /// An element as a constant.
    pub(crate) fn of_element<F: Field>(element: F) -> FpVar
        ensures { result ≡ constant (F.Field.number element) }
    {
        FpVar::Constant(element.to_number())
    }
}

/// The element of a number that may be absent.
pub(crate) fn element<F: Field>(value: Option<u32>) -> Option<F>
    ensures { option_map F.Field.number result ≡ reduced F.Field.modulus value }
{
    Some(F::from_number(value?))
}

/// A combination of terms, as a number.
pub(crate) fn linear<F: Field, S: System<F>>(
    terms: &[Term],
    cs: &mut S,
) -> Result<FpVar, GadgetFault>
    ensures does { Ran (run F.Field.modulus (linear_script terms.now)) (S.System.meaning cs.old) result (S.System.meaning cs.new) }
    ensures adds { Adds S.System.meaning S.System.stored S.System.knows cs.old cs.new }
{
    Ok(FpVar::named(cs.new_lc(terms)?))
}

/// The sum of two variables, as a number.
pub(crate) fn both<F: Field, S: System<F>>(
    x: Variable,
    y: Variable,
    cs: &mut S,
) -> Result<FpVar, GadgetFault>
    ensures does { Ran (run F.Field.modulus (linear_script (times_of 1 x ∷ just y))) (S.System.meaning cs.old) result (S.System.meaning cs.new) }
    ensures adds { Adds S.System.meaning S.System.stored S.System.knows cs.old cs.new }
{
    linear(&[times(1, x), times(1, y)], cs)
}

/// A constant as a combination.
pub(crate) fn constant_lc<F: Field, S: System<F>>(
    c: u32,
    cs: &mut S,
) -> Result<Variable, GadgetFault>
    ensures does { Ran (run F.Field.modulus (constant_script c)) (S.System.meaning cs.old) result (S.System.meaning cs.new) }
    ensures adds { Adds S.System.meaning S.System.stored S.System.knows cs.old cs.new }
{
    Ok(cs.new_lc(&[times(c, Variable::One)])?)
}

/// A variable times a constant: the variable itself where the constant is 1.
pub fn scaled<F: Field, S: System<F>>(
    c: u32,
    v: Variable,
    cs: &mut S,
) -> Result<Variable, GadgetFault>
    ensures does { Ran (run F.Field.modulus (scaled_script F.Field.modulus c v)) (S.System.meaning cs.old) result (S.System.meaning cs.new) }
    ensures adds { Adds S.System.meaning S.System.stored S.System.knows cs.old cs.new }
{
    if F::from_number(c).to_number() == 1 {
        return Ok(v);
    }
    Ok(cs.new_lc(&[times(c, v)])?)
}
