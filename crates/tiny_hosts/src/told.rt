//! What a mind is told.

/// What happened to a host.
#[derive(Clone, Copy, Debug)]
pub enum Told<'a> {
    /// Its link is up.
    LinkUp,
    /// Its link went down, for this reason.
    LinkDown(u8),
    /// It asked for a link, and none was made: this is why.
    LinkFailed(u8),
    /// A whole PDU came, with its header.
    Pdu(&'a [u8]),
    /// Its timer fired.
    TimerFired,
    /// Its push is cancelled.
    Cancelled,
    /// It is to push the object of that name.
    Opening(&'a str),
}
