use h4_framing::H4Refusal;

/// How a run over the line ended.
#[derive(Clone, Copy, Debug, PartialEq, Eq)]
pub enum CarryEnd {
    /// The source is at its end, and all its units were carried and acknowledged.
    All,
    /// There were more than 1,000 rounds, and 100 for each unit that was read.
    Spent,
}

/// Why a run over the line broke off.
#[derive(Clone, Copy, Debug, PartialEq, Eq)]
pub enum CarryFault {
    /// The source is no stream of whole units, at that place.
    Refused(H4Refusal, u64),
    /// The source failed.
    ReadFault,
    /// The sink or the trace failed.
    WriteFault,
    /// Memory was wanting, also that of a port.
    NoMemory,
    /// The source goes past its greatest length, at that place.
    TooLong(u64),
}
