// The comparison of numbers.
#![tactic(auto)]

mod compare;

pub use compare::{enforce_cmp_steps, is_cmp_steps};
