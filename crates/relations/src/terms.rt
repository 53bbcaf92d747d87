ghost use Rattle.std.specs.Prelude.{◌≡◌, ℕ, ◌-◌};
ghost use Rattle.relations.specs.Terms.{times as times_of, just as just_of, less as less_of, one_less as one_less_of};

use crate::term::{Term, Variable};
use field::Field;

/// The number that stands for -1.
pub fn minus_one<F: Field>() -> u32
    ensures { result ≡ F.Field.modulus - 1 }
{
    F::characteristic() - 1
}

/// A coefficient and its variable.
pub fn times(coefficient: u32, variable: Variable) -> Term
    ensures { result ≡ times_of coefficient variable }
{
    Term {
        coefficient,
        variable,
    }
}

/// The sum of a variable alone.
pub fn just(variable: Variable) -> [Term; 1]
    ensures { result ≡ just_of variable }
{
    [times(1, variable)]
}

/// The sum x less y.
pub fn less<F: Field>(x: Variable, y: Variable) -> [Term; 2]
    ensures { result ≡ less_of F.Field.modulus x y }
{
    [times(1, x), times(minus_one::<F>(), y)]
}

/// The sum one less a variable.
pub fn one_less<F: Field>(variable: Variable) -> [Term; 2]
    ensures { result ≡ one_less_of F.Field.modulus variable }
{
    less::<F>(Variable::One, variable)
}
