/// Why a stream is no stream of packets, or ends too early.
#[derive(Clone, Copy, Debug, PartialEq, Eq)]
pub enum H4Refusal {
    /// An octet that should tell a packet's kind is none of 01 to 04.
    BadIndicator = 1,
    /// The length of an ACL packet is above the limit.
    AclTooLong = 2,
    /// The stream ends within a packet.
    Truncated = 3,
}
