ghost use Rattle.std.specs.Prelude.{◌≡◌, ◌==◌, MatchResult};
ghost use Rattle.std.specs.Option.{option_map};
ghost use Rattle.std.specs.Result.{is_ok};
ghost use Rattle.relations.specs.Meaning.{Ran, new_variable, Adds, Leaves};

use field::Field;
use relations::{Mark, Side, System, SystemFault, Term, Variable};
use std::marker::PhantomData;

/// A system over one type of elements as a system over another with the same prime. A value is handed on as the element of the other type
/// that stands for the same number.
#[derive(Drop)]
pub struct Converted<F: Field, G: Field, S: System<F>> {
    below: S,
    from: PhantomData<F>,
    to: PhantomData<G>,
    ghost prime: { F.Field.modulus ≡ G.Field.modulus },
}

impl<F: Field, G: Field, S: System<F>> Converted<F, G, S> {
    /// The system over the other type of elements. Where the primes differ there is none, and the system below is given back.
    pub fn new(below: S) -> Result<Converted<F, G, S>, S>
        ensures decides { is_ok result ≡ (F.Field.modulus == G.Field.modulus) }
        ensures means { MatchResult result (λ o. ⟦<Converted<F, G, S> as System<G>>⟧.meaning o ≡ S.System.meaning below) (λ s. s ≡ below) }
        ensures stores { MatchResult result (λ o. ⟦<Converted<F, G, S> as System<G>>⟧.stored o ≡ S.System.stored below) (λ s. s ≡ below) }
        ensures knowing { MatchResult result (λ o. S.System.knows below → ⟦<Converted<F, G, S> as System<G>>⟧.knows o) (λ s. s ≡ below) }
        ensures holds { MatchResult result (λ o. o.below ≡ below) (λ s. s ≡ below) }
    {
        if F::characteristic() != G::characteristic() {
            return Err(below);
        }
        Ok(Converted {
            below,
            from: PhantomData,
            to: PhantomData,
        })
    }

    /// The system below.
    pub fn below(&self) -> &S
        ensures { result.now ≡ self.now.below }
    {
        &self.below
    }

    /// The system below, over its own type of elements again.
    pub fn into_inner(self) -> S
        ensures { result ≡ self.below }
    {
        let Converted {
            below,
            from: _,
            to: _,
        } = self;
        below
    }
}

/// The element of another type with the same prime that stands for the same number, where there is one.
fn alike<F: Field, G: Field>(value: Option<F>) -> Option<G>
    requires { F.Field.modulus ≡ G.Field.modulus }
    ensures { option_map G.Field.number result ≡ option_map F.Field.number value }
{
    let x = value?;
    Some(G::from_number(x.to_number()))
}

impl<F: Field, G: Field, S: System<F>> System<G> for Converted<F, G, S> {
    ghost meaning = { λ o. S.System.meaning o.below };

    ghost stored = { λ o. S.System.stored o.below };

    ghost knows = { λ o. S.System.knows o.below };

    fn new_variable(&mut self, side: Side, value: Option<G>) -> Result<Variable, SystemFault>
        ensures does { Ran (new_variable side (option_map G.Field.number value)) (S.System.meaning self.old.below) result (S.System.meaning self.new.below) }
        ensures adds { Adds (λ (o : Converted F G S F.Field G.Field S.System). S.System.meaning o.below) (λ o. S.System.stored o.below) (λ o. S.System.knows o.below) self.old self.new }
        ensures leaves { Leaves result (S.System.stored self.old.below) (S.System.stored self.new.below) }
    {
        self.below.new_variable(side, alike(value))
    }

    fn new_lc(&mut self, terms: &[Term]) -> Result<Variable, SystemFault> {
        self.below.new_lc(terms)
    }

    fn enforce_constraint(
        &mut self,
        a: &[Term],
        b: &[Term],
        c: &[Term],
    ) -> Result<(), SystemFault> {
        self.below.enforce_constraint(a, b, c)
    }

    fn admits(&self, a: &[Term], b: &[Term], c: &[Term]) -> Result<(), SystemFault> {
        self.below.admits(a, b, c)
    }

    fn value(&self, variable: Variable) -> Result<Option<G>, SystemFault> {
        let kept = self.below.value(variable)?;
        Ok(alike(kept))
    }

    fn row_count(&self) -> u32 {
        self.below.row_count()
    }

    fn is_met(&self, row: u32) -> Option<bool> {
        self.below.is_met(row)
    }

    fn mark(&self) -> Mark {
        self.below.mark()
    }

    fn keep(&mut self, mark: Mark) {
        self.below.keep(mark);
    }

    fn rewind(&mut self, mark: Mark) -> Result<(), SystemFault> {
        self.below.rewind(mark)
    }
}
