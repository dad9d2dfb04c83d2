//! How an input ends.

/// How an input ends. Places are in octets.
#[derive(Clone, Copy, Debug, PartialEq, Eq)]
pub enum Ending {
    /// Behind its last item.
    Whole,
    /// Within an item, that begins at this place.
    Truncated(u64),
    /// It goes past its greatest length, or ends within an item that would.
    TooLong,
    /// No item stands at this place.
    Refused(u64),
}

/// Why an input was not told of to its end.
#[derive(Clone, Copy, Debug, PartialEq, Eq)]
pub enum StreamFault {
    /// The source failed.
    ReadFault,
    /// The sink failed.
    WriteFault,
    /// No memory could be had.
    NoMemory,
}
