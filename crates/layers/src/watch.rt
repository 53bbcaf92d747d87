ghost use Rattle.std.specs.Prelude.{◌≡◌};
ghost use Rattle.std.specs.Option.{option_map};
ghost use Rattle.relations.specs.Meaning.{Ran, new_variable, Adds, Leaves};
ghost use Rattle.relations.specs.Unmet.{first_unmet};
ghost use Rattle.layers.specs.Watched.{among as among_of, fails as fails_of, Watched};

use field::Field;
use relations::{Mark, Side, System, SystemFault, Term, Variable};
use std::marker::PhantomData;

/// A system that remembers the first of its rows that the kept values do not meet.
#[derive(Drop)]
pub struct Watch<F: Field, S: System<F>> {
    unmet: Option<u32>,
    below: S,
    of: PhantomData<F>,
}

/// Whether a row is there, and the kept values do not meet it.
fn fails<F: Field, S: System<F>>(system: &S, row: u32) -> bool
    ensures { result ≡ fails_of F.Field.modulus row (S.System.meaning system.now) }
{
    matches!(system.is_met(row), Some(false))
}

/// Goes over the rows to the first that fails.
fn seek<F: Field, S: System<F>>(system: &S) -> Option<u32>
    ensures { Watched F.Field.modulus result (S.System.meaning system.now) }
{
    for row in 0..system.row_count() {
        if fails(system, row) {
            return Some(row);
        }
    }
    None
}

/// A row's number, if there are more rows than that.
fn among(row: Option<u32>, rows: u32) -> Option<u32>
    ensures { result ≡ among_of rows row }
{
    row.filter(|row| *row < rows)
}

impl<F: Field, S: System<F>> Watch<F, S> {
    /// A system under watch. It may have rows already: they are gone over once, here.
    pub fn new(below: S) -> Watch<F, S>
        ensures means { ⟦<Watch<F, S> as System<F>>⟧.meaning result ≡ S.System.meaning below }
        ensures stores { ⟦<Watch<F, S> as System<F>>⟧.stored result ≡ S.System.stored below }
        ensures knowing { S.System.knows below → ⟦<Watch<F, S> as System<F>>⟧.knows result }
        ensures holds { result.below ≡ below }
        ensures first { result.unmet ≡ first_unmet F.Field.modulus (S.System.meaning below) }
    {
        let unmet = seek(&below);
        Watch {
            unmet,
            below,
            of: PhantomData,
        }
    }

    /// The first row that the kept values do not meet; none where no values are kept.
    pub fn first_unmet(&self) -> Option<u32>
        ensures remembered { result ≡ self.now.unmet }
        ensures first { ⟦<Watch<F, S> as System<F>>⟧.knows self.now → result ≡ first_unmet F.Field.modulus (⟦<Watch<F, S> as System<F>>⟧.meaning self.now) }
    {
        self.unmet
    }

    /// The system below.
    pub fn below(&self) -> &S
        ensures { result.now ≡ self.now.below }
    {
        &self.below
    }

    /// The system below, with no watch on it.
    pub fn into_inner(self) -> S
        ensures { result ≡ self.below }
    {
        let Watch {
            unmet: _,
            below,
            of: _,
        } = self;
        below
    }
}

impl<F: Field, S: System<F>> System<F> for Watch<F, S> {
    ghost meaning = { λ w. S.System.meaning w.below };

    ghost stored = { λ w. S.System.stored w.below };

    ghost knows = { λ w. S.System.knows w.below × Watched F.Field.modulus w.unmet (S.System.meaning w.below) };

    fn new_variable(&mut self, side: Side, value: Option<F>) -> Result<Variable, SystemFault>
        ensures does { Ran (new_variable side (option_map F.Field.number value)) (S.System.meaning self.old.below) result (S.System.meaning self.new.below) }
        ensures adds { Adds (λ (w : Watch F S). S.System.meaning w.below) (λ w. S.System.stored w.below) (λ w. S.System.knows w.below × Watched F.Field.modulus w.unmet (S.System.meaning w.below)) self.old self.new }
        ensures leaves { Leaves result (S.System.stored self.old.below) (S.System.stored self.new.below) }
    {
        self.below.new_variable(side, value)
    }

    fn new_lc(&mut self, terms: &[Term]) -> Result<Variable, SystemFault> {
        self.below.new_lc(terms)
    }

    fn enforce_constraint(
        &mut self,
        a: &[Term],
        b: &[Term],
        c: &[Term],
    ) -> Result<(), SystemFault> {
        self.below.enforce_constraint(a, b, c)?;
        let row = self.below.row_count() - 1;
        // No row before the new one changes, so it is the first to fail or none is.
        if self.unmet.is_none() && fails(&self.below, row) {
            self.unmet = Some(row);
        }
        Ok(())
    }

    fn admits(&self, a: &[Term], b: &[Term], c: &[Term]) -> Result<(), SystemFault> {
        self.below.admits(a, b, c)
    }

    fn value(&self, variable: Variable) -> Result<Option<F>, SystemFault> {
        self.below.value(variable)
    }

    fn row_count(&self) -> u32 {
        self.below.row_count()
    }

    fn is_met(&self, row: u32) -> Option<bool> {
        self.below.is_met(row)
    }

    fn mark(&self) -> Mark {
        self.below.mark()
    }

    fn keep(&mut self, mark: Mark) {
        self.below.keep(mark);
    }

    fn rewind(&mut self, mark: Mark) -> Result<(), SystemFault> {
        self.below.rewind(mark)?;
        self.unmet = among(self.unmet, self.below.row_count());
        Ok(())
    }
}
