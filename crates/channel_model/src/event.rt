use bt_base::{Cid, Psm};
use ertm_model::ErtmReason;

/// What became of a channel, or of the question for the peer's features.
#[derive(Clone, Copy, Debug, PartialEq, Eq)]
pub enum ChannelEvent {
    /// SDUs may be sent on the channel.
    Opened(Cid, Psm),
    /// The channel is no more, or is only on its way to its end.
    Closed(Cid, Psm, CloseReason),
    /// The peer told its features, or that it does not tell them.
    Features(Option<u32>),
    /// The peer never answered the question for its features.
    FeaturesLost,
    /// The peer never answered the request for the end of the channel, which had been closed before.
    DisconnectLost(Cid),
}

/// Why a channel was closed.
#[derive(Clone, Copy, Debug, PartialEq, Eq)]
pub enum CloseReason {
    /// The peer asked for its end.
    PeerClosed,
    /// The peer answered the request for the channel with this result.
    Refused(u16),
    /// The two sides did not agree on its options.
    NoAgreement,
    /// Something was sent as often as may be, and was not answered.
    RetryLimit,
    /// Its retransmission machine refused what came in.
    Ertm(ErtmReason),
    /// The link is no more.
    LinkDown,
    /// The host itself asked for its end.
    OwnClosed,
}
