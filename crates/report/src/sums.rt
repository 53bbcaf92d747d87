ghost use Rattle.std.specs.Prelude.{◌≡◌, ◌++◌, Some, string_bytes, OnOk};
ghost use Rattle.report.specs.Text.{name_text, term_text, sum_text};

use crate::lines::push_shown;
use std::alloc::AllocError;
use std::fmt;
use std::fmt::Display;

/// The name of the variable with an index: `one`, then the inputs `i0`, `i1`, .., then the witnesses `w0`, `w1`, ..
#[derive(Clone, Copy)]
struct Name {
    index: usize,
    inputs: usize,
}

impl Display for Name {
    ghost output = { λ name. Some (name_text name.inputs name.index) };

    fn fmt<W: fmt::Write>(&self, f: &mut fmt::Formatter<W>) -> fmt::Result {
        let Name { index, inputs } = *self;
        if index == 0 {
            f.write_str("one")
        } else if index <= inputs {
            write!(f, "i{}", index - 1)
        } else {
            write!(f, "w{}", index - 1 - inputs)
        }
    }
}

/// A term: `100 w0`.
#[derive(Clone, Copy)]
struct Term {
    coefficient: u32,
    name: Name,
}

impl Display for Term {
    ghost output = { λ term. Some (term_text term.name.inputs term.name.index term.coefficient) };

    fn fmt<W: fmt::Write>(&self, f: &mut fmt::Formatter<W>) -> fmt::Result {
        let Term { coefficient, name } = *self;
        write!(f, "{coefficient} {name}")
    }
}

/// A sum, by its coefficients: that of one first, then those of the inputs, then those of the witnesses.
#[derive(Clone, Copy)]
struct Sum<'a> {
    coefficients: &'a [u32],
    inputs: usize,
}

impl Sum<'_> {
    /// The term of a coefficient with this index.
    fn term(&self, index: usize, coefficient: u32) -> Term
        ensures { result ≡ record { coefficient = coefficient; name = record { index = index; inputs = self.now.inputs } } }
    {
        let inputs = self.inputs;
        let name = Name { index, inputs };
        Term { coefficient, name }
    }
}

impl Display for Sum<'_> {
    ghost output = { λ sum. Some (sum_text sum.inputs sum.coefficients.now) };

    fn fmt<W: fmt::Write>(&self, f: &mut fmt::Formatter<W>) -> fmt::Result {
        let mut indexed = self.coefficients.iter().enumerate();
        let Some((index, coefficient)) = indexed.find(|(_, coefficient)| **coefficient != 0) else {
            return f.write_str("0");
        };
        write!(f, "{}", self.term(index, *coefficient))?;
        // No `filter` here: a `for` over an iterator that holds a closure gets no proof in a generic function.
        for (index, coefficient) in indexed {
            if *coefficient != 0 {
                write!(f, " + {}", self.term(index, *coefficient))?;
            }
        }
        Ok(())
    }
}

/// Appends a sum by its coefficients, that of one first, then those of the inputs, then those of the witnesses: `1 one + 100 w0`.
/// Zero coefficients are left out, and a sum of none is `0`.
pub fn push_sum(text: &mut String, coefficients: &[u32], inputs: usize) -> Result<(), AllocError>
    ensures { OnOk result (string_bytes text.new ≡ string_bytes text.old ++ sum_text inputs coefficients.now) }
{
    let sum = Sum {
        coefficients,
        inputs,
    };
    push_shown(text, sum)
}
