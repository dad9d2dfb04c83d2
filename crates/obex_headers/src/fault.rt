//! Why octets are no packet.

/// Why octets are refused. A packet is judged in this order: `Short`, `AboveMaximum`, `BadLength`,
/// `BadVersion`, and then header by header `BadHeaderLength` and `BadText`.
#[derive(Clone, Copy, Debug, PartialEq, Eq)]
pub enum ObexRefusal {
    /// There are fewer than three octets, or the fields that the code has are not all there.
    Short = 1,
    /// The length is not that of the octets, or a CONNECT states a maximum below 255 octets.
    BadLength = 2,
    /// A header passes the end of the packet, or states fewer octets than its own front has.
    BadHeaderLength = 3,
    /// A text has an odd number of octets, or no zero unit at its end.
    BadText = 4,
    /// There are more octets than the maximum.
    AboveMaximum = 5,
    /// A CONNECT states another version than 1.
    BadVersion = 6,
}
