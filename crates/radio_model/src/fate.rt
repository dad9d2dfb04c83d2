//! What becomes of a frame in the air.

/// What becomes of the first frame that waits in a direction of the air (this project's own).
#[derive(Clone, Copy, Debug, PartialEq, Eq)]
pub enum Fate {
    /// It is handed over, and leaves.
    Delivered,
    /// It leaves.
    Lost,
    /// It is handed over, and stays.
    Repeated,
    /// So many of its pieces are handed over, or all where it has fewer, and it leaves.
    CutOff(u16),
    /// The octets at `at` and behind it are combined by exclusive or with the high and the low octet
    /// of `mask`. Where the receiver has a check word for its channel it is handed over so, and
    /// leaves; where it has none, it is lost.
    Changed { at: u16, mask: u16 },
}
