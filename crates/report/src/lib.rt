// The text that a run prints: a line for each refusal, the counts, a line for each row, and the verdict.
// Where memory is wanting, what appends to a text gives an `AllocError`, and how much it has appended is not said: such a text is to be
// dropped, as `report` does, which hands out whole texts alone.
#![tactic(auto)]

mod lines;
mod sheet;
mod sums;

pub use lines::{push_counts, push_refusals, push_verdict};
pub use sheet::report;
pub use sums::push_sum;

#[cfg(test)]
mod tests;
