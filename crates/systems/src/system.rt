ghost use Rattle.std.specs.Option.{option_map};
ghost use Rattle.relations.specs.Meaning.{Ran, new_variable, Adds, Leaves};
ghost use Rattle.systems.specs.Held.{meant_by, stored_by};

use crate::store::spend;
use crate::valued::Valued;
use field::Field;
use relations::{Mark, Side, System, SystemFault, Term, Variable};
use words::merge::Merged;

impl<'a, F: Field> System<F> for Valued<'a, F> {
    ghost meaning = { meant_by };

    ghost stored = { stored_by };

    // It remembers nothing of its rows.
    ghost knows = { λ s. Unit {0} };

    fn new_variable(&mut self, side: Side, value: Option<F>) -> Result<Variable, SystemFault>
        ensures does { Ran (new_variable side (option_map F.Field.number value)) (meant_by self.old) result (meant_by self.new) }
        ensures adds { Adds meant_by stored_by (λ s. Unit {0}) self.old self.new }
        ensures leaves { Leaves result (stored_by self.old) (stored_by self.new) }
    {
        let (n, room, full) = self.store.side(side);
        if n >= room {
            return Err(full);
        }
        let Some(x) = value else {
            return Err(SystemFault::MissingValue);
        };
        let at = self.store.next_word(side);
        self.values[at] = x.to_number();
        Ok(self.store.add_variable(side))
    }

    fn new_lc(&mut self, terms: &[Term]) -> Result<Variable, SystemFault> {
        let modulus = self.store.modulus;
        let sum = Merged { modulus, terms };
        let n = self.store.size(sum)?;
        let kept = self.worth(terms);
        Ok(self.store.add_combination(sum, n, kept))
    }

    fn enforce_constraint(
        &mut self,
        a: &[Term],
        b: &[Term],
        c: &[Term],
    ) -> Result<(), SystemFault> {
        self.store.enforce(a, b, c)
    }

    fn admits(&self, a: &[Term], b: &[Term], c: &[Term]) -> Result<(), SystemFault> {
        self.store.admits(a, b, c)
    }

    fn value(&self, variable: Variable) -> Result<Option<F>, SystemFault> {
        if !self.store.has(variable) {
            return Err(SystemFault::UnknownVariable);
        }
        match variable {
            Variable::One => Ok(Some(F::one())),
            _ => Ok(Some(F::from_number(self.word(variable)))),
        }
    }

    fn row_count(&self) -> u32 {
        self.store.count as u32
    }

    fn is_met(&self, row: u32) -> Option<bool> {
        let i = row as usize;
        if i < self.store.count {
            Some(self.row_met(i))
        } else {
            None
        }
    }

    fn mark(&self) -> Mark {
        self.store.mark()
    }

    fn keep(&mut self, mark: Mark) {
        spend(mark);
    }

    fn rewind(&mut self, mark: Mark) -> Result<(), SystemFault> {
        self.store.rewind(mark)
    }
}
