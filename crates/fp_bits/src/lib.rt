// Numbers and their bits.
#![tactic(auto)]

mod bits;
mod convert;
mod digits;
mod low_bits;
mod spelled;
mod split;

pub use bits::{BitCount, Bits, MOST_BITS};
pub use convert::ToBitsGadget;
pub use low_bits::to_bits_le_with_top_bits_zero_steps;
pub use spelled::le_bits_to_fp_steps;
