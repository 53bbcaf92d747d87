// Bits that are variables of a system: loose, and forced by a row.
#![tactic(auto)]

mod allocated;
mod gate;

pub use allocated::{AllocatedBool, LooseBit, chosen_value};
pub use gate::Gate;
