ghost use Rattle.std.specs.Prelude.{◌≡◌};
ghost use Rattle.std.specs.Option.{option_map};
ghost use Rattle.relations.specs.Meaning.{Ran, new_variable, Adds, Leaves};
ghost use Rattle.layers.specs.Quoted.{quoted};

use field::Field;
use relations::{Mark, Side, System, SystemFault, Term, Variable};
use std::marker::PhantomData;

/// A system with a limit of its own on its rows.
#[derive(Drop)]
pub struct Quota<F: Field, S: System<F>> {
    limit: u32,
    below: S,
    of: PhantomData<F>,
}

impl<F: Field, S: System<F>> Quota<F, S> {
    /// A system under a limit. It may have more rows already: then it takes none until it is cut below the limit.
    pub fn new(limit: u32, below: S) -> Quota<F, S>
        ensures means { ⟦<Quota<F, S> as System<F>>⟧.meaning result ≡ quoted limit (S.System.meaning below) }
        ensures stores { ⟦<Quota<F, S> as System<F>>⟧.stored result ≡ S.System.stored below }
        ensures knowing { S.System.knows below → ⟦<Quota<F, S> as System<F>>⟧.knows result }
        ensures limited { result.limit ≡ limit }
        ensures holds { result.below ≡ below }
    {
        Quota {
            limit,
            below,
            of: PhantomData,
        }
    }

    /// The limit.
    pub fn limit(&self) -> u32
        ensures { result ≡ self.now.limit }
    {
        self.limit
    }

    /// The system below.
    pub fn below(&self) -> &S
        ensures { result.now ≡ self.now.below }
    {
        &self.below
    }

    /// The system below, without the limit.
    pub fn into_inner(self) -> S
        ensures { result ≡ self.below }
    {
        let Quota {
            limit: _,
            below,
            of: _,
        } = self;
        below
    }
}

impl<F: Field, S: System<F>> System<F> for Quota<F, S> {
    ghost meaning = { λ q. quoted q.limit (S.System.meaning q.below) };

    ghost stored = { λ q. S.System.stored q.below };

    ghost knows = { λ q. S.System.knows q.below };

    fn new_variable(&mut self, side: Side, value: Option<F>) -> Result<Variable, SystemFault>
        ensures does { Ran (new_variable side (option_map F.Field.number value)) (quoted self.old.limit (S.System.meaning self.old.below)) result (quoted self.new.limit (S.System.meaning self.new.below)) }
        ensures adds { Adds (λ (q : Quota F S). quoted q.limit (S.System.meaning q.below)) (λ q. S.System.stored q.below) (λ q. S.System.knows q.below) self.old self.new }
        ensures leaves { Leaves result (S.System.stored self.old.below) (S.System.stored self.new.below) }
    {
        self.below.new_variable(side, value)
    }

    fn new_lc(&mut self, terms: &[Term]) -> Result<Variable, SystemFault> {
        self.below.new_lc(terms)
    }

    fn enforce_constraint(
        &mut self,
        a: &[Term],
        b: &[Term],
        c: &[Term],
    ) -> Result<(), SystemFault> {
        if self.below.row_count() < self.limit {
            return self.below.enforce_constraint(a, b, c);
        }
        // A used up limit is told only of a row that has its variables and finds room for its terms.
        self.below.admits(a, b, c)?;
        Err(SystemFault::QuotaFull)
    }

    fn admits(&self, a: &[Term], b: &[Term], c: &[Term]) -> Result<(), SystemFault> {
        self.below.admits(a, b, c)
    }

    fn value(&self, variable: Variable) -> Result<Option<F>, SystemFault> {
        self.below.value(variable)
    }

    fn row_count(&self) -> u32 {
        self.below.row_count()
    }

    fn is_met(&self, row: u32) -> Option<bool> {
        self.below.is_met(row)
    }

    fn mark(&self) -> Mark {
        self.below.mark()
    }

    fn keep(&mut self, mark: Mark) {
        self.below.keep(mark);
    }

    fn rewind(&mut self, mark: Mark) -> Result<(), SystemFault> {
        self.below.rewind(mark)
    }
}
