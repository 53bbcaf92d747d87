ghost use Rattle.std.specs.Prelude.{◌≡◌, ℕ, ◌+◌, ◌-◌, ◌*◌, ◌<◌, ◌≤◌, length, MatchResult, OnOk, OnErr};
ghost use Rattle.relations.specs.declared.fault.SystemFault.TheVariants.{MarkRefused};
ghost use Rattle.relations.specs.Meaning.{has, has_all, has_row, admit};
ghost use Rattle.words.specs.Words.{pairs, plain, rows as stored_rows, row_at, triples_in};
ghost use Rattle.words.specs.State.{view};
ghost use Rattle.systems.specs.Read.{Naming, RowRead, RowsRead, CombinationsRead, Writing};
ghost use Rattle.systems.specs.Held.{at_side, Sized, Refused, CutAt, Barred};
ghost use Rattle.systems.specs.Stores.{bare, Laid};
ghost use Rattle.systems.specs.Adding.{next_word, LcSized, LcRefused, PartWritten};
ghost use Rattle.systems.specs.Outline.{working, outlining};

use crate::rooms::{Counts, OutlineFault};
use crate::store::{Part, Store, place, takes};
use relations::{Mark, Side, SystemFault, Term, Variable};
use words::merge::{HandedRow, Merged, Sizes};
use words::read::Names;
use words::scan::{Bounds, Combinations, Row, Rows, floor_of};
use written::writer::Writer;

/// Where the combinations end and the terms of rows begin.
pub(crate) struct Ends {
    pub(crate) front: usize,
    pub(crate) back: usize,
}

// What is read of a store. That its words are well laid is an invariant of the systems over it.
impl<'a> Store<'a> {
    // How long the lists are.
    pub(crate) fn counts(&self) -> Counts
        ensures inputs { result.inputs ≡ self.now.inputs }
        ensures witnesses { result.witnesses ≡ self.now.witnesses }
        ensures combinations { result.combinations ≡ self.now.combinations }
        ensures rows { result.rows ≡ self.now.count }
    {
        Counts {
            inputs: self.inputs,
            witnesses: self.witnesses,
            combinations: self.combinations,
            rows: self.count,
        }
    }

    // A mark of how long they are.
    pub(crate) fn mark(&self) -> Mark
        requires { Laid self.now }
        ensures inputs { result.inputs ≡ self.now.inputs }
        ensures witnesses { result.witnesses ≡ self.now.witnesses }
        ensures combinations { result.combinations ≡ self.now.combinations }
        ensures rows { result.rows ≡ self.now.count }
    {
        Mark {
            inputs: self.inputs as u32,
            witnesses: self.witnesses as u32,
            combinations: self.combinations as u32,
            rows: self.count as u32,
        }
    }

    // What tells which variables are there.
    fn names(&self) -> Names<'_>
        requires { Laid self.now }
        ensures { Naming (bare self.now) result }
    {
        Names {
            terms: self.terms,
            inputs: self.inputs,
            witnesses: self.witnesses,
            front: self.front,
        }
    }

    // The rows, as they are read.
    fn rows(&self) -> Rows<'_>
        requires { Laid self.now }
        ensures { RowsRead (bare self.now) result }
    {
        Rows {
            words: self.rows,
            terms: self.terms,
            top: self.term_room,
            count: self.count,
        }
    }

    // The combinations, as they are read.
    fn combinations(&self) -> Combinations<'_>
        requires { Laid self.now }
        ensures { CombinationsRead (bare self.now) result }
    {
        Combinations {
            words: self.terms,
            left: self.combinations,
            end: self.front,
        }
    }

    // How many variables a side has, how many it takes, and what a full one is refused with.
    pub(crate) fn side(&self, side: Side) -> (usize, usize, SystemFault)
        ensures { result ≡ at_side (bare self.now) side }
    {
        match side {
            Side::Input => (self.inputs, self.input_room, SystemFault::InputsFull),
            Side::Witness => (
                self.witnesses,
                self.witness_room,
                SystemFault::WitnessesFull,
            ),
        }
    }

    // The word that the next variable of a side has among kept values.
    pub(crate) fn next_word(&self, side: Side) -> usize
        requires { Laid self.now }
        ensures { result ≡ next_word (bare self.now) side }
    {
        match side {
            Side::Input => self.inputs,
            Side::Witness => self.input_room + self.witnesses,
        }
    }

    // What follows hands on to what reads the words, and says in the words of the meaning what is said there in its own.

    // Whether a variable is there.
    pub(crate) fn has(&self, variable: Variable) -> bool
        requires { Laid self.now }
        ensures { result ≡ has (view (bare self.now)) variable }
    {
        self.names().has(variable)
    }

    // Whether all variables of some terms are.
    fn has_all(&self, ts: &[Term]) -> bool
        requires { Laid self.now }
        ensures { result ≡ has_all (view (bare self.now)) ts.now }
    {
        self.names().has_all(ts)
    }

    // Whether all variables of a row's sums are.
    fn has_row(&self, row: HandedRow) -> bool
        requires { Laid self.now }
        ensures { result ≡ has_row (view (bare self.now)) row.entry.a.now row.entry.b.now row.entry.c.now }
    {
        self.has_all(row.a) && self.has_all(row.b) && self.has_all(row.c)
    }

    // The terms of row i.
    pub(crate) fn row(&self, i: usize) -> Row<'_>
        requires laid { Laid self.now }
        requires there { i < self.now.count }
        ensures { RowRead (row_at i self.now.rows.now self.now.terms.now) result }
    {
        self.rows().row(i)
    }

    // How many terms a combination takes, if its variables are there and its terms find room with its heading.
    pub(crate) fn size(&self, sum: Merged) -> Result<usize, SystemFault>
        requires laid { Laid self.now }
        requires modulus { sum.modulus ≡ self.now.modulus }
        ensures { MatchResult result (LcSized (bare self.now) sum.entry.terms.now) (LcRefused (bare self.now) sum.entry.terms.now) }
    {
        if !self.has_all(sum.terms) {
            return Err(SystemFault::UnknownVariable);
        }
        let n = sum.len();
        if n >= self.back - self.front {
            return Err(SystemFault::TermsFull);
        }
        Ok(n)
    }

    // How many terms the parts of a row take, if its variables are there and its terms find room. The row
    // carries its modulus, as what is added to a store does.
    pub(crate) fn sizes(&self, row: HandedRow) -> Result<Sizes, SystemFault>
        requires laid { Laid self.now }
        requires modulus { row.modulus ≡ self.now.modulus }
        ensures { MatchResult result (λ n. Sized (bare self.now) row.entry.a.now row.entry.b.now row.entry.c.now n.a n.b n.c) (Refused (bare self.now) row.entry.a.now row.entry.b.now row.entry.c.now) }
    {
        if !self.has_row(row) {
            return Err(SystemFault::UnknownVariable);
        }
        let sizes = row.sizes();
        if !takes(self.back - self.front, sizes) {
            return Err(SystemFault::TermsFull);
        }
        Ok(sizes)
    }

    // Whether a row's variables are there and its terms find room.
    pub(crate) fn admits(&self, a: &[Term], b: &[Term], c: &[Term]) -> Result<(), SystemFault>
        requires { Laid self.now }
        ensures { result ≡ (admit self.now.modulus a.now b.now c.now (view (bare self.now))).0 }
    {
        let modulus = self.modulus;
        let row = HandedRow { modulus, a, b, c };
        self.sizes(row).map(|_| ())
    }

    // Where the lists end if they are cut to these counts, unless that is refused.
    pub(crate) fn cut(&self, to: Counts) -> Result<Ends, SystemFault>
        requires { Laid self.now }
        ensures { MatchResult result (λ e. CutAt (bare self.now) to.inputs to.witnesses to.combinations to.rows e.front e.back) (λ f. (f ≡ MarkRefused) × Barred (bare self.now) to.inputs to.witnesses to.combinations to.rows) }
    {
        if to.inputs > self.inputs
            || to.witnesses > self.witnesses
            || to.combinations > self.combinations
            || to.rows > self.count
        {
            return Err(SystemFault::MarkRefused);
        }
        let combinations = self.combinations().first(to.combinations);
        let rows = self.rows();
        let bounds = Bounds {
            inputs: to.inputs,
            witnesses: to.witnesses,
            places: combinations.end,
        };
        if !bounds.has_combinations(combinations) || !bounds.has_rows(&rows, to.rows) {
            return Err(SystemFault::MarkRefused);
        }
        Ok(Ends {
            front: combinations.end,
            back: floor_of(self.rows, self.term_room, to.rows),
        })
    }

    // The terms, whose sums are written out.
    fn writer(&self) -> Writer<'_>
        requires { Laid self.now }
        ensures { Writing (bare self.now) result }
    {
        Writer {
            terms: self.terms,
            counts: written::Counts {
                inputs: self.inputs,
                witnesses: self.witnesses,
                lcs: self.combinations,
                front: self.front,
            },
            modulus: self.modulus,
        }
    }

    // How many words it takes to write a sum out: one for One, for each input and for each witness, and after these one for
    // each place that the combinations take.
    pub(crate) fn working_words(&self) -> usize
        requires { Laid self.now }
        ensures { result ≡ working (bare self.now) }
    {
        self.writer().counts.cells()
    }

    // Writes out one of the sums of a row.
    pub(crate) fn write_out(
        &self,
        row: usize,
        part: Part,
        out: &mut [u32],
    ) -> Result<(), OutlineFault>
        requires { Laid self.now }
        ensures done { result ≡ outlining self.now.count (working (bare self.now)) row (length out.old) }
        ensures refused { OnErr result (out.new ≡ out.old) }
        ensures written { OnOk result (PartWritten (bare self.now) part row out.old out.new) }
    {
        if row >= self.count {
            return Err(OutlineFault::NoSuchRow);
        }
        // By place and length, and not by a slice of terms: what is written out is defined from the words.
        let at = place(row, part);
        let (start, len) = (self.rows[at], self.rows[at + 1]);
        self.writer().write_out(out, start as usize, len as usize)?;
        Ok(())
    }
}
