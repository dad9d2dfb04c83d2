//! What a client asks of its server.

/// What a client asks next.
#[derive(Clone, Copy, Debug)]
pub(crate) enum Ask {
    Connect,
    Put,
    Abort,
    Disconnect,
    /// The multiplexer and the channel are to be closed.
    Close,
    Nothing,
}
