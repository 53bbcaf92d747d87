ghost use Rattle.std.specs.Prelude.{◌≡◌, ◌++◌, string_bytes, OnOk, IfOk};
ghost use Rattle.systems.specs.Held.{shown_by};
ghost use Rattle.report.specs.Text.{rows_text};
ghost use Rattle.report.specs.Sheet.{page_of, part_text, line_text};
ghost use Rattle.beside.specs.Trial.{setup_report_text};

use crate::fault::Fault;
use command::Refused;
use field::Field;
use report::{push_counts, push_refusals, push_sum};
use std::alloc::Global;
use systems::{Counts, Part, Setup};

/// Appends one of the sums of a row, written out in `words`.
fn push_part<F: Field>(
    text: &mut String,
    system: &Setup<'_, F>,
    row: usize,
    part: Part,
    words: &mut [u32],
) -> Result<(), Fault>
    ensures { OnOk result (string_bytes text.new ≡ string_bytes text.old ++ part_text F.Field.modulus (shown_by system.now) row part) }
{
    let Counts {
        inputs,
        witnesses,
        ..
    } = system.counts();
    system.coefficients(row, part, words)?;
    push_sum(text, &words[..1 + inputs + witnesses], inputs)?;
    Ok(())
}

/// Appends a row's three sums as a line: `1 w0 ; 1 w1 ; 1 w2`.
fn push_row<F: Field>(
    text: &mut String,
    system: &Setup<'_, F>,
    row: usize,
    words: &mut [u32],
) -> Result<(), Fault>
    ensures { OnOk result (string_bytes text.new ≡ string_bytes text.old ++ line_text F.Field.modulus (shown_by system.now) row) }
{
    push_part(text, system, row, Part::A, words)?;
    text.push_str(" ; ")?;
    push_part(text, system, row, Part::B, words)?;
    text.push_str(" ; ")?;
    push_part(text, system, row, Part::C, words)?;
    text.push_str("\n")?;
    Ok(())
}

/// Appends a line for each row.
fn push_rows<F: Field>(heap: Global, text: &mut String, system: &Setup<'_, F>) -> Result<(), Fault>
    ensures { OnOk result (string_bytes text.new ≡ string_bytes text.old ++ rows_text (page_of F.Field.modulus (shown_by system.now)).inputs (page_of F.Field.modulus (shown_by system.now)).rows) }
{
    let mut words = vec![in heap; 0; system.working_words()]?;
    for row in 0..system.counts().rows {
        push_row(text, system, row, &mut words)?;
    }
    Ok(())
}

/// The text of a run on a system that keeps no values: the refusals, the counts, the rows written out, and `setup`.
pub(crate) fn setup_report<F: Field>(
    heap: Global,
    refusals: &[Refused],
    system: &Setup<'_, F>,
) -> Result<String, Fault>
    ensures { IfOk result (λ text. string_bytes text ≡ setup_report_text F.Field.modulus refusals.now (shown_by system.now)) }
{
    let Counts {
        inputs,
        witnesses,
        rows,
        ..
    } = system.counts();
    let mut text = String::new(heap);
    push_refusals(&mut text, refusals)?;
    push_counts(&mut text, inputs, witnesses, rows)?;
    push_rows(heap, &mut text, system)?;
    text.push_str("setup\n")?;
    Ok(text)
}
