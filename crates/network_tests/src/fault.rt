//! What ends a call, or the judging of a sheet: a refusal as its number and its place, or a lack of memory.
//! The tests state refusals in this form, whichever method gave them.
use network::Refusal;
use std::alloc::{AllocError, AllocFailed};

/// Why nothing was answered.
#[derive(Clone, Copy, PartialEq, Eq, Debug, Drop)]
pub(crate) enum Fault {
    /// The number and the place of a refusal.
    Refused(u16, usize),
    OutOfMemory,
}

impl From<Refusal> for Fault {
    fn from(refusal: Refusal) -> Fault {
        Fault::Refused(refusal.number(), refusal.place())
    }
}

impl From<AllocError> for Fault {
    fn from(_e: AllocError) -> Fault {
        Fault::OutOfMemory
    }
}

impl<T: Drop> From<AllocFailed<T>> for Fault {
    fn from(_e: AllocFailed<T>) -> Fault {
        Fault::OutOfMemory
    }
}
