/// How far a channel is on its way to its end (Core 5.1, Volume 3 Part A, 4.6 and 4.7).
#[derive(Clone, Copy, Debug, PartialEq, Eq)]
pub enum Life {
    /// Neither side has ended it.
    Alive,
    /// The host asked for its end and waits for the response.
    Leaving,
    /// The same, and the host has answered the peer's request for its end as well.
    Crossed,
    /// It has ended, and nothing is waited for.
    Over,
}
