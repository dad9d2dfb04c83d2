//! Why a capture could not be made a file.

use crate::refusal::SnoopRefusal;

/// Why a capture was not made a file to its end.
#[derive(Clone, Copy, Debug, PartialEq, Eq)]
pub enum SnoopFault {
    /// The capture is refused, at that place.
    Refused(SnoopRefusal, u64),
    /// The source failed.
    ReadFault,
    /// The sink failed.
    WriteFault,
    /// No memory could be had.
    NoMemory,
}
