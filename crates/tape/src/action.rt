use boolean::{BooleanCall, BooleanStatement};
use command::{Answer, Kary, Range};
use fp_var::{FpCall, FpQuestion, FpStatement};

// An enum, and not a closure, as `BooleanCall` is: the script of a command is a function of it. It is what the contract of a command's call speaks of; a
// running program makes the call at once, and no value of this type.
/// What a command asks for, its operands looked up: an answer that is there already, a call or a statement on bits, one on many bits, which are
/// looked up where it is made, or a call, a question or a statement on numbers.
#[derive(Clone, Copy)]
pub enum Action {
    Alias(Answer),
    Bits(BooleanCall),
    Claim(BooleanStatement),
    Kary(Kary, Range),
    AtMost(Range, u64),
    Numbers(FpCall),
    Question(FpQuestion),
    NumberClaim(FpStatement),
}
