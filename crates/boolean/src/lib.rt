// Bits of a circuit, constants folded, and the calls on them: as steps of a gadget, and as gadgets that are whole or not at all.
#![tactic(auto)]

mod alloc;
mod bits;
mod boolean;
mod calls;
mod eq;
mod mode;
mod select;
mod statements;

pub use alloc::AllocVar;
pub use allocated::{AllocatedBool, Gate, LooseBit};
pub use bits::{Boolean, BooleanCall, BooleanStatement};
pub use eq::EqGadget;
pub use mode::AllocationMode;
pub use select::CondSelectGadget;
