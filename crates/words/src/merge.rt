ghost use Rattle.std.specs.Prelude.{◌≡◌, ℕ, ◌+◌, ◌-◌, ◌*◌, ◌<◌, ◌≤◌, length, slice_index, slice_set};
ghost use Rattle.relations.specs.Sum.{handed, total, named, weight, merged};
ghost use Rattle.words.specs.Words.{pairs, whole, Small, PartsFit, Parts, Places, LcFits, LcWritten};

use crate::read;
use relations::Term;

/// Whether a term names the variable with the code c.
#[inline(always)]
pub fn is_named(ts: &[Term], c: u64) -> bool
    ensures { result ≡ named c (handed ts.now) }
{
    ts.iter().any(|t| read::code_of(t.variable) == c)
}

/// Writes one term, which is two words.
pub fn put(words: &mut [u32], place: usize, c: u32, k: u32)
    requires { (place ≤ 1048576) × (2 * place + 1 < length words.old) }
    ensures { words.new ≡ slice_set (slice_set words.old (2 * place) c) (2 * place + 1) k }
{
    words[2 * place] = c;
    words[2 * place + 1] = k;
}

/// Handed terms of which the coefficients of one variable are summed modulo p.
#[derive(Clone, Copy)]
pub struct Merged<'a> {
    pub modulus: u32,
    pub terms: &'a [Term],
    pub ghost nonzero: { 0 < modulus },
}

impl<'a> Merged<'a> {
    ghost use Rattle.words.specs.Counting.{left};

    /// The sum modulo p of the coefficients of the variable with the code c.
    #[inline(always)]
    pub fn coefficient(&self, c: u64) -> u32
        ensures { result ≡ total self.now.modulus 0 (handed self.now.terms.now) c }
    {
        let mut a: u32 = 0;
        for t in self.terms {
            if read::code_of(t.variable) == c {
                a = read::multiply_add(self.modulus, 1, read::counted_at(*t), a);
            }
        }
        a
    }

    /// What a term of the variable with the code c counts where the terms `after` follow it: the variable's whole coefficient,
    /// if none of them names it, and else nothing.
    #[inline(always)]
    pub fn weight(&self, c: u64, after: &[Term]) -> u32
        ensures { result ≡ weight self.now.modulus (handed self.now.terms.now) c (handed after.now) }
    {
        if is_named(after, c) {
            0
        } else {
            self.coefficient(c)
        }
    }

    // The terms that they are stored as.
    fn stored(&self) -> Counting<'a>
        ensures { left result ≡ whole self.now.modulus self.now.terms.now }
    {
        Counting {
            all: *self,
            rest: self.terms,
        }
    }

    /// How many different variables have a nonzero coefficient.
    #[inline(always)]
    pub fn len(&self) -> usize
        ensures { result ≡ length (whole self.now.modulus self.now.terms.now) }
    {
        self.stored().count()
    }

    /// Writes the terms that they are stored as from the place `at` on.
    pub fn store(&self, words: &mut [u32], at: usize)
        requires fits { (2 * (at + length (whole self.now.modulus self.now.terms.now)) ≤ length words.old) × (at + length (whole self.now.modulus self.now.terms.now) ≤ 65536) }
        requires small { Small self.now.terms.now }
        ensures holds { pairs at (length (whole self.now.modulus self.now.terms.now)) words.new ≡ whole self.now.modulus self.now.terms.now }
        ensures below { (j : ℕ) → j < 2 * at → slice_index words.new j ≡ slice_index words.old j }
        ensures above { (j : ℕ) → 2 * (at + length (whole self.now.modulus self.now.terms.now)) ≤ j → slice_index words.new j ≡ slice_index words.old j }
    {
        for (i, (c, k)) in self.stored().enumerate() {
            put(words, at + i, c as u32, k);
        }
    }

    /// Writes the n terms that they are stored as from the place `front` on, and then their heading with the kept value.
    pub fn write_combination(&self, words: &mut [u32], front: usize, n: usize, kept: u32)
        requires { LcFits self.now.modulus front n kept self.now.terms.now words.old }
        ensures { LcWritten self.now.modulus front n kept self.now.terms.now words.old words.new }
    {
        self.store(words, front);
        put(words, front + n, 8 * n as u32 + 4, kept);
    }
}

// The terms that count, from some of the handed terms on: the code of a variable and its whole coefficient, if that is not
// zero, at the last term to name it.
#[derive(Drop)]
struct Counting<'a> {
    all: Merged<'a>,
    rest: &'a [Term],
}

impl<'a> Iterator for Counting<'a> {
    ghost use Rattle.std.specs.Iterator.{YieldsFirst, item_count};
    ghost use Rattle.words.specs.Counting.{left};

    type Item = (u64, u32);

    ghost next_gives = { YieldsFirst left };

    ghost remaining = { item_count left };

    #[inline(always)]
    fn next(&mut self) -> Option<(u64, u32)> {
        while let Some((t, after)) = self.rest.split_first() {
            let c = read::code_of(t.variable);
            let k = self.all.weight(c, after);
            self.rest = after;
            if k != 0 {
                return Some((c, k));
            }
        }
        None
    }
}

// Its own type beside `HandedRow` and `Row`, and not one type with a parameter: `HandedRow` has an invariant besides, and no method would be shared.
/// How many terms the parts of a row have.
#[derive(Clone, Copy)]
pub struct Sizes {
    pub a: usize,
    pub b: usize,
    pub c: usize,
}

impl Sizes {
    /// Where the parts begin, if they lie below `back`, one below the other.
    pub fn places(self, back: usize) -> (usize, usize, usize)
        requires { self.a + self.b + self.c ≤ back }
        ensures { result ≡ (back - self.a, back - self.a - self.b, back - self.a - self.b - self.c) }
    {
        let a = back - self.a;
        let b = a - self.b;
        (a, b, b - self.c)
    }

    /// Writes the six words of row n: where its parts begin, and how long they are.
    pub fn write_places(self, rows: &mut [u32], n: usize, back: usize)
        requires { (self.a + self.b + self.c ≤ back) × (back ≤ 65536) × (n < 65536) × (6 * n + 6 ≤ length rows.old) }
        ensures { Places n back self.a self.b self.c rows.old rows.new }
    {
        let (a, b, c) = self.places(back);
        put(rows, 3 * n, a as u32, self.a as u32);
        put(rows, 3 * n + 1, b as u32, self.b as u32);
        put(rows, 3 * n + 2, c as u32, self.c as u32);
    }
}

/// The handed terms of a row.
#[derive(Clone, Copy)]
pub struct HandedRow<'a> {
    pub modulus: u32,
    pub a: &'a [Term],
    pub b: &'a [Term],
    pub c: &'a [Term],
    pub ghost nonzero: { 0 < modulus },
}

impl<'a> HandedRow<'a> {
    // One of its sums.
    fn sum(&self, terms: &'a [Term]) -> Merged<'a>
        ensures modulus { result.modulus ≡ self.now.modulus }
        ensures terms { result.terms.now ≡ terms.now }
    {
        Merged {
            modulus: self.modulus,
            terms,
        }
    }

    /// How many terms its parts are stored as.
    pub fn sizes(&self) -> Sizes
        ensures a { result.a ≡ length (whole self.now.modulus self.now.a.now) }
        ensures b { result.b ≡ length (whole self.now.modulus self.now.b.now) }
        ensures c { result.c ≡ length (whole self.now.modulus self.now.c.now) }
    {
        Sizes {
            a: self.sum(self.a).len(),
            b: self.sum(self.b).len(),
            c: self.sum(self.c).len(),
        }
    }

    /// Writes its terms below `back`, one part below the other.
    pub fn write(&self, words: &mut [u32], back: usize, sizes: Sizes)
        requires { PartsFit self.now.modulus back sizes.a sizes.b sizes.c self.now.a.now self.now.b.now self.now.c.now words.old }
        ensures { Parts self.now.modulus back sizes.a sizes.b sizes.c self.now.a.now self.now.b.now self.now.c.now words.old words.new }
    {
        let (a, b, c) = sizes.places(back);
        self.sum(self.a).store(words, a);
        self.sum(self.b).store(words, b);
        self.sum(self.c).store(words, c);
    }
}
