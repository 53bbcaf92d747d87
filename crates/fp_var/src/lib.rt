// Numbers of a circuit, constants folded, and the calls on them: as steps of a gadget, and as gadgets that are whole or not at all.
#![tactic(auto)]

mod arithmetic;
mod calls;
mod comparing;
mod numbers;
mod pieces;
mod residues;
mod select;
mod statements;

pub use numbers::{FpCall, FpQuestion, FpStatement, FpVar};
pub use pieces::scaled;
pub use statements::holding;
