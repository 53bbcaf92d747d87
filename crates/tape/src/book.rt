ghost use Rattle.std.specs.Prelude.{◌≤◌, length};

use boolean::Boolean;
use command::{Answer, Kind, Kinds, Range, TapeFault};
use fp_var::FpVar;

/// The answers so far, in the order in which they came, over a lent slice: as many places as it has, and at most 4,096.
// A slice and the count of its used places, and not a vector: the places of a book are lent by the caller of a run, and a book never allocates.
#[derive(Drop)]
pub struct Book<'a> {
    answers: &'a mut [Answer],
    count: usize,
    ghost within: { count ≤ length answers.now },
}

/// The most answers that a book takes.
pub const MOST: usize = 4096;

impl<'a> Book<'a> {
    ghost use Rattle.std.specs.Prelude.{◌≡◌, ◌+◌, true, min, [], ◌++◌, length, take, if◌then◌else◌, nat_le};
    ghost use Rattle.std.specs.Result.{is_ok};
    ghost use Rattle.command.specs.Decide.{short};
    ghost use Rattle.command.specs.Answers.{answer_at, bit_at, number_at, bits_at};
    ghost use Rattle.tape.specs.Book.{held_by, places_of};

    /// An empty book over a lent slice.
    pub fn new(answers: &'a mut [Answer]) -> Book<'a>
        ensures empty { held_by result ≡ [] }
        ensures places { places_of result ≡ min 4096 (length answers.old) }
    {
        Book { answers, count: 0 }
    }

    /// How many answers the book takes.
    pub fn places(&self) -> usize
        ensures { result ≡ places_of self.now }
    {
        self.answers.len().min(MOST)
    }

    /// How many answers it holds.
    pub fn len(&self) -> usize
        ensures { result ≡ length (held_by self.now) }
    {
        self.held().len()
    }

    /// The answers that it holds.
    fn held(&self) -> &[Answer]
        ensures { result.now ≡ held_by self.now }
    {
        &self.answers[..self.count]
    }

    /// The answer with a number; a book that has no such answer gives a constant.
    pub fn get(&self, a: u32) -> Answer
        ensures { result ≡ answer_at (held_by self.now) a }
    {
        let constant = Answer::Bit(Boolean::Constant(false));
        self.held().get(a as usize).copied().unwrap_or(constant)
    }

    /// The bit with a number; an answer that is none stands for a constant.
    pub fn bit(&self, a: u32) -> Boolean
        ensures { result ≡ bit_at (held_by self.now) a }
    {
        match self.get(a) {
            Answer::Bit(bit) => bit,
            Answer::Number(_) => Boolean::Constant(false),
        }
    }

    /// The answer with a number as a number of the circuit; one that is a bit stands for a constant.
    pub fn number(&self, a: u32) -> FpVar
        ensures { result ≡ number_at (held_by self.now) a }
    {
        match self.get(a) {
            Answer::Bit(_) => FpVar::Constant(0),
            Answer::Number(number) => number,
        }
    }

    /// The bits of a range of at most 64 answers; what stands behind them is not said.
    pub(crate) fn bits(&self, range: Range) -> [Boolean; 64]
        requires { short range ≡ true }
        ensures { take range.count result ≡ bits_at (held_by self.now) range }
    {
        let mut bits = [Boolean::Constant(false); 64];
        let first: u32 = range.first.into();
        for i in 0..range.count {
            bits[i as usize] = self.bit(first + i as u32);
        }
        bits
    }

    /// More answers, refused where there are not places for all of them; a book that refuses stays as it is.
    pub fn extend(&mut self, answers: &[Answer]) -> Result<(), TapeFault>
        ensures places { places_of self.new ≡ places_of self.old }
        ensures extended { result ≡ (if nat_le (length (held_by self.old) + length answers.now) (places_of self.old) then Ok tt else Err TapeFault.BookFull) }
        ensures holds { held_by self.new ≡ (if is_ok result then held_by self.old ++ answers.now else held_by self.old) }
    {
        let (start, more) = (self.count, answers.len());
        if more > self.places() || start > self.places() - more {
            return Err(TapeFault::BookFull);
        }
        // A list of one, which most commands give, is written without a copy of a length that is found out as it runs.
        match answers {
            [answer] => self.answers[start] = *answer,
            _ => self.answers[start..start + more].copy_from_slice(answers),
        }
        self.count = start + more;
        Ok(())
    }
}

impl<'a> Kinds for Book<'a> {
    ghost use Rattle.command.specs.Answers.{kinds as kinds_of};
    ghost use Rattle.tape.specs.Book.{held_by};

    ghost kinds = { λ b. kinds_of (held_by b) };

    fn count(&self) -> usize {
        self.len()
    }

    fn kind(&self, a: u32) -> Option<Kind> {
        self.held().get(a as usize).map(|answer| answer.kind())
    }
}
