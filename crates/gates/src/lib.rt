// Gates of many bits, and a bound on the number that bits spell.
#![tactic(auto)]

mod calls;
mod kary;
mod members;
mod sum;
mod walk;
mod wide;

pub use calls::enforce_smaller_or_equal_than_le;
pub use kary::{KaryCall, KaryStatement};
pub use members::{MOST_MEMBERS, Members};
pub use walk::{bit_length, enforce_smaller_or_equal_than_le_steps};
pub use wide::Wide;
