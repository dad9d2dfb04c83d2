/// A channel of a link, as one of its hosts sees it (Core 5.1, Volume 3 Part A, 2.1 and 4.2).
#[derive(Clone, Copy, Debug, PartialEq, Eq)]
pub struct Channel {
    /// The protocol that was asked for.
    pub psm: u16,
    /// The host's own endpoint.
    pub own: u16,
    /// The endpoint of the peer.
    pub peer: u16,
}
