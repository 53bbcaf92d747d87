ghost use Rattle.std.specs.Prelude.{◌≡◌, ◌<◌, ◌≤◌, ◌++◌, length, vec_len, IfOk, string_bytes, OnOk};
ghost use Rattle.systems.specs.Held.{state, meant_by};
ghost use Rattle.systems.specs.Outline.{working};
ghost use Rattle.report.specs.Text.{rows_text, report_text};
ghost use Rattle.report.specs.Sheet.{page_of, part_text, line_text};

use crate::lines::{push_counts, push_refusals, push_verdict};
use crate::sums::push_sum;
use command::Refused;
use field::Field;
use std::alloc::{AllocError, Global};
use systems::{Counts, Part, Valued};

/// A system whose rows are written out, with the words that a sum is written into.
#[derive(Drop)]
struct Sheet<'s, 'a, F: Field> {
    system: &'s Valued<'a, F>,
    words: Vec<u32>,
    ghost room: { working (state system.now) ≤ vec_len words },
}

impl<'s, 'a, F: Field> Sheet<'s, 'a, F> {
    /// A sheet of a system, with as many words as it takes.
    fn new(heap: Global, system: &'s Valued<'a, F>) -> Result<Sheet<'s, 'a, F>, AllocError>
        ensures { IfOk result (λ sheet. sheet.system ≡ system.entry) }
    {
        let words = vec![in heap; 0; system.working_words()]?;
        Ok(Sheet { system, words })
    }

    /// Writes out one of a row's sums and appends it.
    fn push_part(&mut self, text: &mut String, row: usize, part: Part) -> Result<(), AllocError>
        requires { row < length (meant_by self.old.system.now).rows }
        ensures same { self.new.system ≡ self.old.system }
        ensures text { OnOk result (string_bytes text.new ≡ string_bytes text.old ++ part_text F.Field.modulus (meant_by self.old.system.now) row part) }
    {
        let Counts {
            inputs,
            witnesses,
            ..
        } = self.system.counts();
        let Ok(()) = self.system.coefficients(row, part, &mut self.words) else {
            unreachable!();
        };
        push_sum(text, &self.words[..1 + inputs + witnesses], inputs)
    }

    // No `Display`: each sum is written into the same words before it is shown, so a row is no value of its own.
    /// Appends a row's three sums as a line: `1 w0 ; 1 w1 ; 1 w2`.
    fn push_row(&mut self, text: &mut String, row: usize) -> Result<(), AllocError>
        requires { row < length (meant_by self.old.system.now).rows }
        ensures same { self.new.system ≡ self.old.system }
        ensures text { OnOk result (string_bytes text.new ≡ string_bytes text.old ++ line_text F.Field.modulus (meant_by self.old.system.now) row) }
    {
        self.push_part(text, row, Part::A)?;
        text.push_str(" ; ")?;
        self.push_part(text, row, Part::B)?;
        text.push_str(" ; ")?;
        self.push_part(text, row, Part::C)?;
        text.push_str("\n")
    }

    /// Appends a line for each row.
    fn push_rows(&mut self, text: &mut String) -> Result<(), AllocError>
        ensures { OnOk result (string_bytes text.new ≡ string_bytes text.old ++ rows_text (page_of F.Field.modulus (meant_by self.old.system.now)).inputs (page_of F.Field.modulus (meant_by self.old.system.now)).rows) }
    {
        for row in 0..self.system.counts().rows {
            self.push_row(text, row)?;
        }
        Ok(())
    }
}

/// The text of a whole run: the refusals, the counts, the rows written out, and the verdict.
pub fn report<'a, F: Field>(
    heap: Global,
    refusals: &[Refused],
    system: &Valued<'a, F>,
) -> Result<String, AllocError>
    ensures { IfOk result (λ text. string_bytes text ≡ report_text refusals.now (page_of F.Field.modulus (meant_by system.now))) }
{
    let Counts {
        inputs,
        witnesses,
        rows,
        ..
    } = system.counts();
    let mut text = String::new(heap);
    push_refusals(&mut text, refusals)?;
    push_counts(&mut text, inputs, witnesses, rows)?;
    Sheet::new(heap, system)?.push_rows(&mut text)?;
    push_verdict(&mut text, system.verdict())?;
    Ok(text)
}
