ghost use Rattle.std.specs.Prelude.{◌≡◌, ℕ, ◌+◌, ◌*◌, ◌<◌, ◌≤◌, length, nat_le, is_ok, OnOk, IfErr, slice_index};
ghost use Rattle.relations.specs.declared.term.Variable.{Variable};
ghost use Rattle.relations.specs.Written.{expanded};
ghost use Rattle.words.specs.Words.{Chain, stored};
ghost use Rattle.words.specs.Once.{Chain-prop};
ghost use Rattle.written.specs.Cells.{cells, Small, Beyond, Below, Holds, Added, Spread, Lies, newest_first, written_out, Over};
ghost use Rattle.written.specs.Keeps.{Keeps};

use crate::Counts;
use words::read;
use words::scan::Combinations;

/// Where sums are not written out: `cells` words are wanted, and fewer were lent.
#[derive(Clone, Copy)]
pub struct TooShort {
    pub cells: usize,
}

/// The stored terms of a system, whose sums are to be written out modulo p.
#[derive(Clone, Copy)]
pub struct Writer<'a> {
    pub terms: &'a [u32],
    pub counts: Counts,
    pub modulus: u32,
    pub ghost nonzero: { 0 < modulus },
    pub ghost small: { Small counts },
    pub ghost chain: { Chain counts.lcs counts.front terms.now } by { Chain-prop counts.lcs counts.front terms.now },
    pub ghost long: { 2 * counts.front ≤ length terms.now },
}

impl<'a> Writer<'a> {
    // The words that are written into stay a parameter: each clause speaks of them before and after, and a struct would only add its name to each.

    // Adds k times x to the coefficient of the variable with the code c.
    fn add_term(&self, out: &mut [u32], k: u32, c: u32, x: u32)
        requires { cells self.now.counts ≤ length out.old }
        ensures { Added self.now.modulus self.now.counts k c x out.old out.new }
    {
        if let Some(i) = self.counts.cell(c) {
            out[i] = read::multiply_add(self.modulus, k, x, out[i]);
        }
    }

    // Adds k times each of some stored terms.
    fn add_terms(&self, out: &mut [u32], k: u32, terms: &[[u32; 2]])
        requires room { cells self.now.counts ≤ length out.old }
        requires below { Below self.now.modulus self.now.counts out.old }
        ensures { Spread self.now.modulus self.now.counts k (stored terms.now) out.old out.new }
    {
        if k == 0 {
            return;
        }
        for [c, x] in terms {
            self.add_term(out, k, *c, *x);
        }
    }

    // Adds to the coefficients, for each combination from the newest down, its coefficient times its terms.
    fn replace_combinations(&self, out: &mut [u32])
        requires room { cells self.now.counts ≤ length out.old }
        requires below { Below self.now.modulus self.now.counts out.old }
        ensures holds { (f : Variable → ℕ) → Holds self.now.counts out.old f → Holds self.now.counts out.new (expanded self.now.modulus f (newest_first self.now.modulus self.now.counts self.now.terms.now)) }
        ensures beyond { Beyond self.now.counts out.old out.new }
    {
        let combinations = Combinations {
            words: self.terms,
            left: self.counts.lcs,
            end: self.counts.front,
        };
        for (place, terms) in combinations {
            let k = out[1 + self.counts.inputs + self.counts.witnesses + place];
            self.add_terms(out, k, terms);
        }
    }

    /// Writes out the sum of the `len` stored terms from the place `start` on: the coefficients of One, of the inputs and of
    /// the witnesses, in this order, with each combination replaced by its terms. It works in as many cells more as the
    /// combinations take places; where `out` has not all these cells it is left as it is, and the error says how many are wanted.
    pub fn write_out(&self, out: &mut [u32], start: usize, len: usize) -> Result<(), TooShort>
        requires { Lies start len self.now.terms.now }
        ensures room { is_ok result ≡ nat_le (cells self.now.counts) (length out.old) }
        ensures refused { IfErr result (λ e. (e.cells ≡ cells self.now.counts) × (out.new ≡ out.old)) }
        ensures written { OnOk result (Over self.now.counts (written_out self.now.modulus self.now.counts start len self.now.terms.now) out.old out.new) }
        ensures keeps { OnOk result (Keeps self.now.modulus self.now.counts start len self.now.terms.now out.new) }
    {
        let size = self.counts.cells();
        if out.len() < size {
            return Err(TooShort { cells: size });
        }
        out[..size].fill(0);
        self.add_terms(out, 1, read::stored_terms(self.terms, start, len));
        self.replace_combinations(out);
        Ok(())
    }
}
