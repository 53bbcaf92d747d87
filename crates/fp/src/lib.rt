// Numbers that are variables of a system, and what compares them.
#![tactic(auto)]

mod number;

pub use number::AllocatedFp;
