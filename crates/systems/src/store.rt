ghost use Rattle.std.specs.Prelude.{◌≡◌, ℕ, ◌+◌, ◌-◌, ◌*◌, ◌<◌, ◌≤◌, length, nat_le, List, MatchResult};
ghost use Rattle.relations.specs.declared.term.Variable.TheVariants.{Combination};
ghost use Rattle.words.specs.Words.{LcFits, PartsFit};
ghost use Rattle.systems.specs.Held.{at_side};
ghost use Rattle.systems.specs.Stores.{beside, bare, Laid, LcAdded, RowAdded};
ghost use Rattle.systems.specs.Adding.{side_variable, with_side, RowTaken, RowRefused, StoreCut, CutRefused};
ghost use Rattle.systems.specs.Outline.{place};

use crate::laid::Ends;
use crate::rooms::Counts;
use relations::{Mark, Side, SystemFault, Term, Variable};
use words::merge::{HandedRow, Merged, Sizes};

/// One of the three sums of a row: the product of A and B is C.
#[derive(Clone, Copy)]
pub enum Part {
    A,
    B,
    C,
}

// Slices with counts beside them, and not vectors: the memory of a system is lent by its caller, and this crate allocates none.
/// The rows and terms of a constraint system in lent words: six words to a row, two to a term. Combinations and their
/// headings grow from the front of the terms, the terms of rows from the back of their room.
#[derive(Drop)]
pub struct Store<'a> {
    pub(crate) rows: &'a mut [u32],
    pub(crate) terms: &'a mut [u32],
    pub(crate) modulus: u32,
    pub(crate) inputs: usize,
    pub(crate) witnesses: usize,
    pub(crate) combinations: usize,
    pub(crate) count: usize,
    pub(crate) front: usize,
    pub(crate) back: usize,
    pub(crate) input_room: usize,
    pub(crate) witness_room: usize,
    pub(crate) term_room: usize,
    pub(crate) row_room: usize,
}

/// Whether the parts of a row fit into the room.
pub(crate) fn takes(room: usize, sizes: Sizes) -> bool
    ensures { result ≡ nat_le (sizes.a + sizes.b + sizes.c) room }
{
    sizes.a <= room && sizes.b <= room - sizes.a && sizes.c <= room - sizes.a - sizes.b
}

/// Where a part of a row stands in the words of rows: the place of its first term, and in the next word how many there are.
pub(crate) fn place(row: usize, part: Part) -> usize
    requires { row < 65536 }
    ensures { result ≡ place part row }
{
    match part {
        Part::A => 6 * row,
        Part::B => 6 * row + 2,
        Part::C => 6 * row + 4,
    }
}

/// Spends a mark.
pub(crate) fn spend(mark: Mark) {
    let Mark {
        inputs: _,
        witnesses: _,
        combinations: _,
        rows: _,
    } = mark;
}

// What changes a store. That its words are well laid is an invariant of the systems over it, which say besides what is kept beside it.
impl<'a> Store<'a> {
    // Counts one more variable on a side that has room for it.
    pub(crate) fn add_variable(&mut self, side: Side) -> Variable
        requires room { (at_side (bare self.old) side).0 < (at_side (bare self.old) side).1 }
        requires limit { (at_side (bare self.old) side).1 ≤ 65536 }
        ensures names { result ≡ side_variable (bare self.old) side }
        ensures counts { (us ws : List ℕ) → beside self.new ws ≡ with_side side (beside self.old us) ws }
    {
        // Two arms, since the two counts are two fields.
        match side {
            Side::Input => {
                let n = self.inputs;
                self.inputs = n + 1;
                Variable::Input(n as u32)
            }
            Side::Witness => {
                let n = self.witnesses;
                self.witnesses = n + 1;
                Variable::Witness(n as u32)
            }
        }
    }

    // What is added carries its modulus, which is that of the store: it is built before it is known whether there is room.

    // Writes a combination of n terms with its kept value after the last one.
    pub(crate) fn add_combination(&mut self, terms: Merged, n: usize, kept: u32) -> Variable
        requires fits { LcFits terms.modulus self.old.front n kept terms.terms.now self.old.terms.now }
        requires few { self.old.combinations ≤ 65536 }
        requires modulus { terms.modulus ≡ self.old.modulus }
        ensures names { result ≡ Combination (self.old.front + n) }
        ensures added { LcAdded n kept terms.entry.terms.now self.old self.new }
    {
        let (front, combinations) = (self.front, self.combinations);
        terms.write_combination(self.terms, front, n, kept);
        self.front = front + n + 1;
        self.combinations = combinations + 1;
        Variable::Combination((front + n) as u32)
    }

    // Writes a row whose parts have these sizes after the last one.
    fn add_row(&mut self, row: HandedRow, sizes: Sizes)
        requires parts { PartsFit row.modulus self.old.back sizes.a sizes.b sizes.c row.a.now row.b.now row.c.now self.old.terms.now }
        requires words { (self.old.count < 65536) × (6 * self.old.count + 6 ≤ length self.old.rows.now) }
        requires modulus { row.modulus ≡ self.old.modulus }
        ensures { RowAdded sizes.a sizes.b sizes.c row.entry.a.now row.entry.b.now row.entry.c.now self.old self.new }
    {
        let (count, back) = (self.count, self.back);
        row.write(self.terms, back, sizes);
        sizes.write_places(self.rows, count, back);
        self.back = back - sizes.a - sizes.b - sizes.c;
        self.count = count + 1;
    }

    // Adds a row, if its variables are there, its terms find room, and there is room for one more.
    pub(crate) fn enforce(&mut self, a: &[Term], b: &[Term], c: &[Term]) -> Result<(), SystemFault>
        requires { Laid self.old }
        ensures { MatchResult result (λ _. RowTaken a.now b.now c.now self.old self.new) (RowRefused a.now b.now c.now self.old self.new) }
    {
        let modulus = self.modulus;
        let row = HandedRow { modulus, a, b, c };
        let sizes = self.sizes(row)?;
        if self.count >= self.row_room {
            return Err(SystemFault::RowsFull);
        }
        self.add_row(row, sizes);
        Ok(())
    }

    // Cuts the lists to the lengths of a mark, unless that is refused.
    pub(crate) fn rewind(&mut self, mark: Mark) -> Result<(), SystemFault>
        requires { Laid self.old }
        ensures { MatchResult result (λ _. StoreCut mark.inputs mark.witnesses mark.combinations mark.rows self.old self.new) (CutRefused mark.inputs mark.witnesses mark.combinations mark.rows self.old self.new) }
    {
        // Taken apart here, and by no `From`: a mark is spent by its system alone.
        let Mark {
            inputs,
            witnesses,
            combinations,
            rows,
        } = mark;
        let to = Counts {
            inputs: inputs as usize,
            witnesses: witnesses as usize,
            combinations: combinations as usize,
            rows: rows as usize,
        };
        let Ends { front, back } = self.cut(to)?;
        self.inputs = to.inputs;
        self.witnesses = to.witnesses;
        self.combinations = to.combinations;
        self.count = to.rows;
        self.front = front;
        self.back = back;
        Ok(())
    }
}
