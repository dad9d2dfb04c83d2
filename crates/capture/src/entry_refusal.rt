/// Why no entry stands at a place of a capture.
#[derive(Clone, Copy, Debug, PartialEq, Eq)]
pub enum EntryRefusal {
    /// The first octet is no tag.
    BadTag,
    /// The input ends within the entry.
    Truncated,
    /// The payload is not one of its tag.
    BadRecord,
}

/// Why a capture was not read.
#[derive(Clone, Copy, Debug, PartialEq, Eq)]
pub enum CaptureFault {
    /// The first place, in octets, where no entry stands, and why.
    Refused(EntryRefusal, usize),
    /// No memory could be had.
    NoMemory,
}
