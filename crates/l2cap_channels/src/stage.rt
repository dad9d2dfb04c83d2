use crate::request::Request;
use bt_base::Cid;

/// How far a channel is (Core 5.1, Volume 3 Part A, 6.1). `peer` is the peer's endpoint of it.
#[derive(Clone, Copy)]
pub(crate) enum Stage {
    /// The host asked for the channel.
    Requested(Request),
    /// It is there.
    Connected(Cid),
    /// It is there, and the host asked for its end.
    Leaving(Cid, Request),
    /// The host closed it and waits for the answer to its request for the end; and whether what comes in
    /// until then has a check word.
    Closing(Cid, Request, bool),
    /// The same, and the host has answered the peer's request for the end as well.
    Crossed(Cid, Request),
}
