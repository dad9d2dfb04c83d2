/// The kinds of requests that a peer makes (Core 5.1, Volume 3 Part A, table 4.2).
#[derive(Clone, Copy, Debug, PartialEq, Eq)]
pub enum RequestKind {
    /// Code 02.
    Connection,
    /// Code 04.
    Configuration,
    /// Code 06.
    Disconnection,
    /// Code 08.
    Echo,
    /// Code 0A.
    Information,
}
