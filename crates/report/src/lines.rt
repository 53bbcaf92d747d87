ghost use Rattle.std.specs.Prelude.{◌≡◌, ◌++◌, Some, IfSome, string_bytes, OnOk};
ghost use Rattle.report.specs.Text.{refusals_text, counts_text, verdict_text};

use command::Refused;
use std::alloc::AllocError;
use std::fmt;
use std::fmt::Display;
use systems::Verdict;

/// Appends what a value shows as `{}`. Where it fails, memory was wanting, and how much of the value was written is not said.
pub(crate) fn push_shown<D: Display + Drop>(text: &mut String, value: D) -> Result<(), AllocError>
    ensures { OnOk result (IfSome (D.Display.output value) (λ bytes. string_bytes text.new ≡ string_bytes text.old ++ bytes)) }
{
    text.write(value).map_err(|_| AllocError)
}

/// The lines of some refusals, in their order: `refused 4 2 1` for the command 4, refused with the number 2 by the layer 1.
#[derive(Clone, Copy)]
struct Refusals<'a>(&'a [Refused]);

impl Display for Refusals<'_> {
    ghost output = { λ refusals. Some (refusals_text refusals.0.now) };

    fn fmt<W: fmt::Write>(&self, f: &mut fmt::Formatter<W>) -> fmt::Result {
        for refused in self.0 {
            writeln!(f, "{refused}")?;
        }
        Ok(())
    }
}

/// The last line: `met`, or `unmet` with the number of the first row that is not met.
#[derive(Clone, Copy)]
struct LastLine(Verdict);

impl Display for LastLine {
    ghost output = { λ line. Some (verdict_text line.0) };

    fn fmt<W: fmt::Write>(&self, f: &mut fmt::Formatter<W>) -> fmt::Result {
        match self.0 {
            Verdict::Met => writeln!(f, "met"),
            Verdict::Unmet(row) => writeln!(f, "unmet {row}"),
        }
    }
}

/// Appends a line for each refusal, in their order: `refused 4 2 1` for the command 4, refused with the number 2 by the layer 1.
pub fn push_refusals(text: &mut String, refusals: &[Refused]) -> Result<(), AllocError>
    ensures { OnOk result (string_bytes text.new ≡ string_bytes text.old ++ refusals_text refusals.now) }
{
    push_shown(text, Refusals(refusals))
}

// No type of its own: the three counts are shown in this one line, and `format_args!` is a `Display` already.
/// Appends the line `inputs 0 witnesses 3 rows 3`.
pub fn push_counts(
    text: &mut String,
    inputs: usize,
    witnesses: usize,
    rows: usize,
) -> Result<(), AllocError>
    ensures { OnOk result (string_bytes text.new ≡ string_bytes text.old ++ counts_text inputs witnesses rows) }
{
    push_shown(
        text,
        format_args!("inputs {inputs} witnesses {witnesses} rows {rows}\n"),
    )
}

/// Appends the last line: `met`, or `unmet` with the number of the first row that is not met.
pub fn push_verdict(text: &mut String, verdict: Verdict) -> Result<(), AllocError>
    ensures { OnOk result (string_bytes text.new ≡ string_bytes text.old ++ verdict_text verdict) }
{
    push_shown(text, LastLine(verdict))
}
