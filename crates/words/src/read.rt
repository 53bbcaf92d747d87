ghost use Rattle.std.specs.Prelude.{◌≡◌, ℕ, ◌+◌, ◌-◌, ◌*◌, ◌/◌, ◌%◌, ◌<◌, ◌≤◌, true, length};
ghost use Rattle.relations.specs.Sum.{code, decode, counted, handed, code_in, all_in};
ghost use Rattle.words.specs.Words.{there, all_there, word_of, worth, Reads, pairs, stored};

use relations::{Term, Variable};

// A function, and not a `From`: the number is how words hold a variable, and means nothing elsewhere.
/// A variable as a number: a tag in the lowest three bits, and above it an index or a heading's place.
pub fn code_of(v: Variable) -> u64
    ensures { result ≡ code v }
{
    match v {
        Variable::One => 0,
        Variable::Zero => 5,
        Variable::Input(i) => 8 * i as u64 + 1,
        Variable::Witness(i) => 8 * i as u64 + 2,
        Variable::Combination(c) => 8 * c as u64 + 3,
    }
}

// A function, and not a `From`: it asks something of a term, and does not turn it into something else.
/// What a term's coefficient counts: nothing at the variable zero.
pub fn counted_at(t: Term) -> u32
    ensures { result ≡ counted t.variable t.coefficient }
{
    match t.variable {
        Variable::Zero => 0,
        _ => t.coefficient,
    }
}

/// The terms that stand in `len` pairs of words from the place `start` on: each a code and a coefficient.
#[inline(always)]
pub fn stored_terms(words: &[u32], start: usize, len: usize) -> &[[u32; 2]]
    requires { (2 * (start + len) ≤ length words.now) × (start + len ≤ 65536) }
    ensures terms { stored result.now ≡ pairs start len words.now }
    ensures long { length result.now ≡ len }
{
    let (terms, _) = words[2 * start..2 * (start + len)].as_chunks();
    terms
}

/// k times x, and `sum` more, modulo p.
pub fn multiply_add(p: u32, k: u32, x: u32, sum: u32) -> u32
    requires { 0 < p }
    ensures { result ≡ (k * x + sum) % p }
{
    ((k as u64 * x as u64 + sum as u64) % p as u64) as u32
}

/// Which variables a system has: how many inputs and witnesses there are, and the terms, of which those of combinations lie
/// below `front`.
#[derive(Clone, Copy)]
pub struct Names<'a> {
    pub terms: &'a [u32],
    pub inputs: usize,
    pub witnesses: usize,
    pub front: usize,
    pub ghost lies: { (2 * front ≤ length terms.now) × (front ≤ 65536) },
}

impl<'a> Names<'a> {
    /// Whether a variable is a constant, one of the inputs and witnesses, or a heading's place below `front`.
    pub fn has(&self, variable: Variable) -> bool
        ensures { result ≡ there self.now.inputs self.now.witnesses self.now.front self.now.terms.now variable }
    {
        match variable {
            Variable::One => true,
            Variable::Zero => true,
            Variable::Input(k) => (k as usize) < self.inputs,
            Variable::Witness(k) => (k as usize) < self.witnesses,
            Variable::Combination(c) => {
                (c as usize) < self.front && self.terms[2 * c as usize] % 8 == 4
            }
        }
    }

    /// Whether all variables of some terms are.
    pub fn has_all(&self, ts: &[Term]) -> bool
        ensures { result ≡ all_there self.now.inputs self.now.witnesses self.now.front self.now.terms.now ts.now }
    {
        ts.iter().all(|t| self.has(t.variable))
    }
}

// Not over a `Names`, whose bounds it has among its own: both would have to be shown wherever one is made.
/// The words of a system to be read: the kept values, inputs first and witnesses from the input room on, and the terms,
/// of which those of combinations lie below `front`.
#[derive(Clone, Copy)]
pub struct Reader<'a> {
    pub values: &'a [u32],
    pub terms: &'a [u32],
    pub input_room: usize,
    pub inputs: usize,
    pub witnesses: usize,
    pub front: usize,
    pub ghost reads: { Reads inputs witnesses front input_room values.now terms.now },
}

impl<'a> Reader<'a> {
    // The tag is looked at here, in `Bounds::has` and where cells are counted: each asks another thing of it, and a variable made of it would be asked again.
    /// The word that is kept for the variable with the code c: 1 for a constant, 0 for a place without a heading.
    pub fn word(&self, c: u64) -> u32
        requires { code_in self.now.inputs self.now.witnesses self.now.front c ≡ true }
        ensures { result ≡ word_of self.now.input_room self.now.values.now self.now.terms.now (decode c) }
    {
        let i = (c / 8) as usize;
        match c % 8 {
            1 => self.values[i],
            2 => self.values[self.input_room + i],
            3 if self.terms[2 * i] % 8 == 4 => self.terms[2 * i + 1],
            3 => 0,
            _ => 1,
        }
    }

    // The modulus stays a parameter, here and of the two functions below: were it a field, `word` would ask for one too, and it needs none.

    /// k times the word for the code c, and `sum` more, modulo p.
    fn add(&self, p: u32, sum: u32, c: u64, k: u32) -> u32
        requires modulus { 0 < p }
        requires there { code_in self.now.inputs self.now.witnesses self.now.front c ≡ true }
        ensures { result ≡ (k * word_of self.now.input_room self.now.values.now self.now.terms.now (decode c) + sum) % p }
    {
        multiply_add(p, k, self.word(c), sum)
    }

    /// The value modulo p of handed terms under the kept words.
    pub fn worth(&self, p: u32, ts: &[Term]) -> u32
        requires modulus { 0 < p }
        requires there { all_in self.now.inputs self.now.witnesses self.now.front (handed ts.now) ≡ true }
        ensures { result ≡ worth p self.now.input_room self.now.values.now self.now.terms.now (handed ts.now) }
    {
        let mut sum: u32 = 0;
        for t in ts.iter().rev() {
            sum = self.add(p, sum, code_of(t.variable), counted_at(*t));
        }
        sum
    }

    // The same loop as that of `worth`, over terms of another type: one function over both would take an iterator, and a contract that lists what it yields.
    /// The value modulo p of stored terms under the kept words.
    pub fn worth_stored(&self, p: u32, terms: &[[u32; 2]]) -> u32
        requires modulus { 0 < p }
        requires there { all_in self.now.inputs self.now.witnesses self.now.front (stored terms.now) ≡ true }
        ensures { result ≡ worth p self.now.input_room self.now.values.now self.now.terms.now (stored terms.now) }
    {
        let mut sum: u32 = 0;
        for [c, k] in terms.iter().rev() {
            sum = self.add(p, sum, *c as u64, *k);
        }
        sum
    }
}
