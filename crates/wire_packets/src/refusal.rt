/// Why octets are no packet. Where several hold, the first of them is answered.
#[derive(Clone, Copy, Debug, PartialEq, Eq)]
pub enum WireRefusal {
    /// There are fewer octets than the four of a header (section 4).
    Short = 1,
    /// Behind DB stands neither DC nor DD (section 3).
    BadEscape = 2,
    /// The four octets of the header do not add up to FF, modulo 256 (section 4.7).
    BadChecksum = 3,
    /// The packet has a data integrity check (section 4.3), which is not spoken here.
    Checked = 4,
    /// The payload has not the length that the header states (section 4.6), or a packet has more
    /// than 4,099 octets.
    BadLength = 5,
    /// No packet here is of that type (section 4.5).
    BadKind = 6,
}
