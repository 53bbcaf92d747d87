use std::alloc::AllocError;
use systems::{OpenFault, OutlineFault};

/// Why there is no text of a run: memory is wanting, the block's digits or prime are none, the system is not opened, or a row is
/// not written out.
#[derive(Clone, Copy)]
pub(crate) enum Fault {
    Memory,
    NoTape,
    NotOpened,
    NotWrittenOut,
}

impl From<AllocError> for Fault {
    fn from(fault: AllocError) -> Fault {
        Fault::Memory
    }
}

impl From<OpenFault> for Fault {
    fn from(fault: OpenFault) -> Fault {
        Fault::NotOpened
    }
}

impl From<OutlineFault> for Fault {
    fn from(fault: OutlineFault) -> Fault {
        Fault::NotWrittenOut
    }
}
