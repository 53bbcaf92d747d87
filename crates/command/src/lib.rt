#![tactic(auto)]

mod answers;
mod checking;
mod commands;
mod decoding;
mod fault;

pub use answers::{Answer, Answers, Refused, mode_of, number_of, value_of};
pub use checking::{Kinds, check};
pub use commands::{Binary, Claim, Command, Comparison, Decoded, Kary, Kind, Range, Unary};
pub use decoding::{Shape, decode, opcode_shape};
pub use fault::TapeFault;
