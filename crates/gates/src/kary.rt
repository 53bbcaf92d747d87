use crate::members::Members;
use crate::wide::Wide;
use boolean::Boolean;

/// A question on many bits with its operands.
#[derive(Clone, Copy)]
pub enum KaryCall<'a> {
    Joined(Wide, Members<'a>),
    Nand(Members<'a>),
}

/// A statement on many bits with its operands: that not all are one, or that they spell at most a number.
#[derive(Clone, Copy)]
pub enum KaryStatement<'a> {
    Nand(Members<'a>),
    AtMost(&'a [Boolean], u64),
}
