ghost use Rattle.std.specs.Prelude.{◌≡◌, ◌<◌, true, length, take, drop, OnOk, OnErr};
ghost use Rattle.relations.specs.Sum.{sum_of};
ghost use Rattle.relations.specs.Meaning.{has, has_all, assigned};
ghost use Rattle.relations.specs.Unmet.{met};
ghost use Rattle.words.specs.Words.{row_at, meant};
ghost use Rattle.systems.specs.Read.{Reading};
ghost use Rattle.systems.specs.Held.{state, meant_by};
ghost use Rattle.systems.specs.Verdict.{verdict};
ghost use Rattle.systems.specs.Outline.{width, working, row_sum, coefficients, outlining, KeepsValue};

use crate::rooms::{Counts, OutlineFault};
use crate::store::Part;
use crate::valued::Valued;
use field::Field;
use relations::{Term, Variable};
use words::read::{Reader, code_of, multiply_add};

/// What the kept values make of the rows: they meet them all, or the first that they do not meet has this number.
#[derive(Clone, Copy)]
pub enum Verdict {
    Met,
    Unmet(u32),
}

impl<'a, F: Field> Valued<'a, F> {
    /// How long the lists are.
    pub fn counts(&self) -> Counts
        ensures inputs { result.inputs ≡ length (meant_by self.now).inputs }
        ensures witnesses { result.witnesses ≡ length (meant_by self.now).witnesses }
        ensures combinations { result.combinations ≡ length (meant_by self.now).combos }
        ensures rows { result.rows ≡ length (meant_by self.now).rows }
    {
        self.store.counts()
    }

    // The words, as they are read.
    fn reader(&self) -> Reader<'_>
        ensures { Reading (state self.now) result }
    {
        Reader {
            values: self.values,
            terms: self.store.terms,
            input_room: self.store.input_room,
            inputs: self.store.inputs,
            witnesses: self.store.witnesses,
            front: self.store.front,
        }
    }

    // The number that is kept for a variable that is there.
    pub(crate) fn word(&self, variable: Variable) -> u32
        requires { has (meant_by self.now) variable ≡ true }
        ensures { result ≡ assigned (meant_by self.now) variable }
    {
        match variable {
            Variable::Zero => 0,
            _ => self.reader().word(code_of(variable)),
        }
    }

    // The value of terms whose variables are there.
    pub(crate) fn worth(&self, ts: &[Term]) -> u32
        requires { has_all (meant_by self.now) ts.now ≡ true }
        ensures is { result ≡ (sum_of self.now.store.modulus ts.now).value (assigned (meant_by self.now)) }
        ensures below { result < self.now.store.modulus }
    {
        self.reader().worth(self.store.modulus, ts)
    }

    // Whether the kept values meet row i.
    pub(crate) fn row_met(&self, i: usize) -> bool
        requires { i < self.now.store.count }
        ensures { result ≡ met self.now.store.modulus (assigned (meant_by self.now)) (meant self.now.store.modulus (row_at i self.now.store.rows.now self.now.store.terms.now)) }
    {
        let (p, reader, row) = (self.store.modulus, self.reader(), self.store.row(i));
        let a = reader.worth_stored(p, row.a);
        let b = reader.worth_stored(p, row.b);
        multiply_add(p, a, b, 0) == reader.worth_stored(p, row.c)
    }

    /// Whether the kept values meet all rows, or else the first that they do not meet.
    pub fn verdict(&self) -> Verdict
        ensures { result ≡ verdict F.Field.modulus (meant_by self.now) }
    {
        for i in 0..self.store.count {
            if !self.row_met(i) {
                return Verdict::Unmet(i as u32);
            }
        }
        Verdict::Met
    }

    /// How many words it takes to write a sum out: one for One, for each input and for each witness, and after these one for
    /// each place that the combinations take.
    pub fn working_words(&self) -> usize
        ensures { result ≡ working (state self.now) }
    {
        self.store.working_words()
    }

    /// Writes out one of the sums of a row, with each combination replaced by its terms: the coefficients of One, of the
    /// inputs and of the witnesses, in this order. Under each assignment they come to the sum's value. Where it fails `out` is
    /// as it was. What it leaves in the words of the combinations' places is not said.
    pub fn coefficients(&self, row: usize, part: Part, out: &mut [u32]) -> Result<(), OutlineFault>
        ensures done { result ≡ outlining (length (meant_by self.now).rows) (working (state self.now)) row (length out.old) }
        ensures refused { OnErr result (out.new ≡ out.old) }
        ensures written { OnOk result (take (width (meant_by self.now)) out.new ≡ coefficients F.Field.modulus (meant_by self.now) (row_sum part row (meant_by self.now))) }
        ensures keeps { OnOk result (KeepsValue F.Field.modulus (meant_by self.now) (row_sum part row (meant_by self.now)) out.new) }
        ensures beyond { OnOk result (drop (working (state self.now)) out.new ≡ drop (working (state self.now)) out.old) }
    {
        self.store.write_out(row, part, out)
    }
}
