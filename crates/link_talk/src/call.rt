use capture::Flow;

/// What a request for a channel asks for (Core 5.1, Volume 3 Part A, 4.2).
#[derive(Clone, Copy, Debug, PartialEq, Eq)]
pub struct Wanted {
    /// The protocol.
    pub psm: u16,
    /// The endpoint of the side that asks.
    pub source: u16,
}

/// A request for a channel.
#[derive(Clone, Copy, Debug, PartialEq, Eq)]
pub struct Call {
    /// Which way it went.
    pub flow: Flow,
    pub identifier: u8,
    /// What it asks for, where it can be read.
    pub wanted: Option<Wanted>,
}

/// A request of the host for a channel that came to nothing: it was refused, or given up.
#[derive(Clone, Copy, Debug, PartialEq, Eq)]
pub struct Failure {
    pub identifier: u8,
    /// The host's endpoint that it named.
    pub own: u16,
}
