#![tactic(auto)]

mod fault;
mod gadget;
mod system;
mod term;
mod terms;

pub use fault::{GadgetFault, Layer, Reason, Refusal, SystemFault};
pub use gadget::{Gadget, call};
pub use system::System;
pub use term::{Mark, Side, Term, Variable};
pub use terms::{just, less, minus_one, one_less, times};
