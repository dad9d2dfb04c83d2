//! The greatest values of a run.

/// The greatest values that a run reached at host a and at host b.
#[derive(Clone, Copy, Debug, PartialEq, Eq)]
pub struct Peaks {
    /// ACL packets of host a that its controller held.
    pub buffers_a: u16,
    /// The same of host b.
    pub buffers_b: u16,
    /// Frames of an enhanced channel that host a had sent and that were not acknowledged.
    pub window_a: u8,
    /// The same of host b.
    pub window_b: u8,
    /// Credits of an RFCOMM channel that host a held.
    pub credits_a: u16,
    /// The same of host b.
    pub credits_b: u16,
}
