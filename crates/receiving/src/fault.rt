//! Why a host does not go on with what it is fed.

/// Why a stream of a controller is refused. Each has a place, in octets from the first of the stream.
#[derive(Clone, Copy, Debug, PartialEq, Eq)]
pub enum StreamRefusal {
    /// An octet that should tell a packet's kind is none of 01 to 04.
    BadIndicator = 1,
    /// The length of an ACL packet is above 1,021 octets.
    AclTooLong = 2,
    /// The stream ends within a packet.
    Truncated = 3,
    /// A command of the host failed.
    CommandFailed = 4,
    /// The controller's ACL packets are too short, or it takes none.
    BadBuffers = 5,
    /// The stream goes past 67,108,864 octets.
    TooLong = 6,
}

/// Why a host was not fed to the end of a source.
#[derive(Clone, Copy, Debug, PartialEq, Eq)]
pub enum ListenFault {
    /// The stream is refused at that place.
    Refused(StreamRefusal, u64),
    /// The source failed.
    ReadFault,
    /// The sink failed.
    WriteFault,
    /// No memory could be had.
    NoMemory,
}
