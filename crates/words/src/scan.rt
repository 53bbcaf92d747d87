ghost use Rattle.std.specs.Prelude.{◌≡◌, ℕ, ◌+◌, ◌-◌, ◌*◌, ◌/◌, ◌%◌, ◌<◌, ◌≤◌, length, take, slice_index, MatchOption};
ghost use Rattle.std.specs.Iterator.{at_most};
ghost use Rattle.relations.specs.Sum.{code_in, all_in};
ghost use Rattle.words.specs.Words.{stored, heading, combinations, TakenOff, Chain, Tagged, lists_in, Stack, part, row_at, triple_in, triples_in, rows as stored_rows, floor};
ghost use Rattle.words.specs.Once.{Chain-prop, Stack-prop};

use crate::read::stored_terms;

/// How many terms the combination that ends at `end` has.
pub fn length_at(words: &[u32], end: usize) -> usize
    requires { (0 < end) × (2 * end ≤ length words.now) × (end ≤ 65536) }
    ensures { result ≡ heading end words.now }
{
    (words[2 * (end - 1)] / 8) as usize
}

/// Where the terms of the first r rows begin, which lie from `top` down.
pub fn floor_of(rows: &[u32], top: usize, r: usize) -> usize
    requires { (r ≤ 65536) × (6 * r ≤ length rows.now) }
    ensures { result ≡ floor top r rows.now }
{
    if r == 0 {
        top
    } else {
        rows[6 * (r - 1) + 4] as usize
    }
}

/// The combinations that end at a place of the words, from the newest down: for each the place of its heading, and its terms.
#[derive(Clone, Copy)]
pub struct Combinations<'a> {
    pub words: &'a [u32],
    pub left: usize,
    pub end: usize,
    pub ghost chain: { Chain left end words.now } by { Chain-prop left end words.now },
    pub ghost lies: { (2 * end ≤ length words.now) × (end ≤ 65536) },
}

impl<'a> Combinations<'a> {
    /// The oldest k of them: what is left where the newest are taken off.
    pub fn first(self, k: usize) -> Combinations<'a>
        requires { k ≤ self.left }
        ensures count { result.left ≡ k }
        ensures words { result.words.now ≡ self.entry.words.now }
        ensures low { result.end ≤ self.entry.end }
        ensures chain { Chain k result.end self.entry.words.now }
        ensures tagged { (p : ℕ) → Tagged p self.entry.left self.entry.end self.entry.words.now → Tagged p k result.end self.entry.words.now }
        ensures cut { take k (combinations self.entry.left self.entry.end self.entry.words.now) ≡ combinations k result.end self.entry.words.now }
    {
        let mut rest = self;
        while rest.left > k {
            let _ = rest.next();
        }
        rest
    }
}

impl<'a> Iterator for Combinations<'a> {
    type Item = (usize, &'a [[u32; 2]]);

    ghost next_gives = { λ s r t. MatchOption r ((s.left ≡ 0) × (t ≡ s)) (λ x. TakenOff s.left s.end s.words.now t.left t.end t.words.now x.0 (stored x.1.now)) };

    ghost remaining = { λ s. at_most s.left };

    fn next(&mut self) -> Option<(usize, &'a [[u32; 2]])> {
        if self.left == 0 {
            return None;
        }
        let place = self.end - 1;
        let len = length_at(self.words, self.end);
        let start = place - len;
        let terms = stored_terms(self.words, start, len);
        *self = Combinations {
            words: self.words,
            left: self.left - 1,
            end: start,
        };
        Some((place, terms))
    }
}

/// The terms of one row.
#[derive(Clone, Copy)]
pub struct Row<'a> {
    pub a: &'a [[u32; 2]],
    pub b: &'a [[u32; 2]],
    pub c: &'a [[u32; 2]],
}

// Words by their places, and not `[u32; 6]`: the definitions number the words of a row, and no loop goes over rows alone.
/// The first `count` rows: six words each, which say where in the terms, from `top` down, their parts lie.
#[derive(Clone, Copy)]
pub struct Rows<'a> {
    pub words: &'a [u32],
    pub terms: &'a [u32],
    pub top: usize,
    pub count: usize,
    pub ghost stack: { Stack top count words.now } by { Stack-prop top count words.now },
    pub ghost lies: { (count ≤ 65536) × (6 * count ≤ length words.now) × (2 * top ≤ length terms.now) × (top ≤ 65536) },
}

impl<'a> Rows<'a> {
    // The terms of a part, whose place and number stand in two words.
    #[inline(always)]
    fn part(&self, at: usize) -> &'a [[u32; 2]]
        requires { (at + 1 < length self.now.words.now) × (slice_index self.now.words.now at + slice_index self.now.words.now (at + 1) ≤ self.now.top) }
        ensures { stored result.now ≡ part at self.now.words.now self.now.terms.now }
    {
        stored_terms(
            self.terms,
            self.words[at] as usize,
            self.words[at + 1] as usize,
        )
    }

    /// Row i.
    #[inline(always)]
    pub fn row(&self, i: usize) -> Row<'a>
        requires { i < self.now.count }
        ensures a { stored result.a.now ≡ (row_at i self.now.words.now self.now.terms.now).a }
        ensures b { stored result.b.now ≡ (row_at i self.now.words.now self.now.terms.now).b }
        ensures c { stored result.c.now ≡ (row_at i self.now.words.now self.now.terms.now).c }
    {
        Row {
            a: self.part(6 * i),
            b: self.part(6 * i + 2),
            c: self.part(6 * i + 4),
        }
    }
}

/// The variables that may be named: the constants, the first inputs and witnesses, and headings below `places`.
#[derive(Clone, Copy)]
pub struct Bounds {
    pub inputs: usize,
    pub witnesses: usize,
    pub places: usize,
}

impl Bounds {
    /// Whether the variable with the code c is one of them.
    #[inline(always)]
    pub fn has(self, c: u32) -> bool
        ensures { result ≡ code_in self.inputs self.witnesses self.places c }
    {
        match c % 8 {
            1 => ((c / 8) as usize) < self.inputs,
            2 => ((c / 8) as usize) < self.witnesses,
            3 => ((c / 8) as usize) < self.places,
            _ => true,
        }
    }

    /// Whether stored terms name only those.
    #[inline(always)]
    pub fn has_all(self, terms: &[[u32; 2]]) -> bool
        ensures { result ≡ all_in self.inputs self.witnesses self.places (stored terms.now) }
    {
        terms.iter().rev().all(|[c, _]| self.has(*c))
    }

    /// Whether combinations do.
    pub fn has_combinations(self, combos: Combinations) -> bool
        ensures { result ≡ lists_in self.inputs self.witnesses self.places (combinations combos.entry.left combos.entry.end combos.entry.words.now) }
    {
        for (_, terms) in combos {
            if !self.has_all(terms) {
                return false;
            }
        }
        true
    }

    // Of a stored row, where `has_row` of systems asks of a handed one: other terms, and another question.
    /// Whether a row does.
    #[inline(always)]
    pub fn has_row(self, row: Row) -> bool
        ensures { result ≡ triple_in self.inputs self.witnesses self.places (record { a = stored row.entry.a.now; b = stored row.entry.b.now; c = stored row.entry.c.now }) }
    {
        self.has_all(row.a) && self.has_all(row.b) && self.has_all(row.c)
    }

    // Part by part, so that a part is looked up where those before it do.
    /// Whether row i does.
    #[inline(always)]
    fn has_row_at(self, rows: &Rows, i: usize) -> bool
        requires { i < rows.now.count }
        ensures { result ≡ triple_in self.inputs self.witnesses self.places (row_at i rows.now.words.now rows.now.terms.now) }
    {
        self.has_all(rows.part(6 * i))
            && self.has_all(rows.part(6 * i + 2))
            && self.has_all(rows.part(6 * i + 4))
    }

    /// Whether the first r rows do.
    pub fn has_rows(self, rows: &Rows, r: usize) -> bool
        requires { r ≤ rows.now.count }
        ensures { result ≡ triples_in self.inputs self.witnesses self.places (stored_rows r rows.now.words.now rows.now.terms.now) }
    {
        for i in (0..r).rev() {
            if !self.has_row_at(rows, i) {
                return false;
            }
        }
        true
    }
}
