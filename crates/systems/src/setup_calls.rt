ghost use Rattle.std.specs.Prelude.{◌≡◌, length, take, drop, OnOk, OnErr};
ghost use Rattle.std.specs.Option.{option_map};
ghost use Rattle.relations.specs.Meaning.{Ran, new_variable, Adds, Leaves};
ghost use Rattle.systems.specs.Stores.{bare};
ghost use Rattle.systems.specs.Held.{shown_by, laid_by};
ghost use Rattle.systems.specs.Outline.{width, working, row_sum, coefficients, outlining, KeepsValue};

use crate::rooms::{Counts, OutlineFault};
use crate::setup::Setup;
use crate::store::{Part, spend};
use field::Field;
use relations::{Mark, Side, System, SystemFault, Term, Variable};
use words::merge::Merged;

impl<'a, F: Field> Setup<'a, F> {
    /// How long the lists are.
    pub fn counts(&self) -> Counts
        ensures inputs { result.inputs ≡ length (shown_by self.now).inputs }
        ensures witnesses { result.witnesses ≡ length (shown_by self.now).witnesses }
        ensures combinations { result.combinations ≡ length (shown_by self.now).combos }
        ensures rows { result.rows ≡ length (shown_by self.now).rows }
    {
        self.store.counts()
    }

    /// How many words it takes to write a sum out: one for One, for each input and for each witness, and after these one for
    /// each place that the combinations take.
    pub fn working_words(&self) -> usize
        ensures { result ≡ working (bare self.now.store) }
    {
        self.store.working_words()
    }

    /// Writes out one of the sums of a row, with each combination replaced by its terms: the coefficients of One, of the
    /// inputs and of the witnesses, in this order. Under each assignment they come to the sum's value. Where it fails `out` is
    /// as it was. What it leaves in the words of the combinations' places is not said.
    pub fn coefficients(&self, row: usize, part: Part, out: &mut [u32]) -> Result<(), OutlineFault>
        ensures done { result ≡ outlining (length (shown_by self.now).rows) (working (bare self.now.store)) row (length out.old) }
        ensures refused { OnErr result (out.new ≡ out.old) }
        ensures written { OnOk result (take (width (shown_by self.now)) out.new ≡ coefficients F.Field.modulus (shown_by self.now) (row_sum part row (shown_by self.now))) }
        ensures keeps { OnOk result (KeepsValue F.Field.modulus (shown_by self.now) (row_sum part row (shown_by self.now)) out.new) }
        ensures beyond { OnOk result (drop (working (bare self.now.store)) out.new ≡ drop (working (bare self.now.store)) out.old) }
    {
        self.store.write_out(row, part, out)
    }
}

impl<'a, F: Field> System<F> for Setup<'a, F> {
    ghost meaning = { shown_by };

    ghost stored = { laid_by };

    // It remembers nothing of its rows.
    ghost knows = { λ s. Unit {0} };

    fn new_variable(&mut self, side: Side, value: Option<F>) -> Result<Variable, SystemFault>
        ensures does { Ran (new_variable side (option_map F.Field.number value)) (shown_by self.old) result (shown_by self.new) }
        ensures adds { Adds shown_by laid_by (λ s. Unit {0}) self.old self.new }
        ensures leaves { Leaves result (laid_by self.old) (laid_by self.new) }
    {
        let (n, room, full) = self.store.side(side);
        if n >= room {
            return Err(full);
        }
        Ok(self.store.add_variable(side))
    }

    fn new_lc(&mut self, terms: &[Term]) -> Result<Variable, SystemFault> {
        let modulus = self.store.modulus;
        let sum = Merged { modulus, terms };
        let n = self.store.size(sum)?;
        Ok(self.store.add_combination(sum, n, 0))
    }

    fn enforce_constraint(
        &mut self,
        a: &[Term],
        b: &[Term],
        c: &[Term],
    ) -> Result<(), SystemFault> {
        self.store.enforce(a, b, c)
    }

    fn admits(&self, a: &[Term], b: &[Term], c: &[Term]) -> Result<(), SystemFault> {
        self.store.admits(a, b, c)
    }

    fn value(&self, variable: Variable) -> Result<Option<F>, SystemFault> {
        if self.store.has(variable) {
            Ok(None)
        } else {
            Err(SystemFault::UnknownVariable)
        }
    }

    fn row_count(&self) -> u32 {
        self.store.count as u32
    }

    fn is_met(&self, row: u32) -> Option<bool> {
        None
    }

    fn mark(&self) -> Mark {
        self.store.mark()
    }

    fn keep(&mut self, mark: Mark) {
        spend(mark);
    }

    fn rewind(&mut self, mark: Mark) -> Result<(), SystemFault> {
        self.store.rewind(mark)
    }
}
