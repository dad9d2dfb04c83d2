//! What a client is told.

use bt_base::Psm;
use push_model::CloseCause;

/// What has happened to a client.
#[derive(Clone, Copy, Debug)]
pub enum ProfileEvent<'a> {
    /// The link is there.
    LinkUp,
    /// The link is down, for this reason (Core 5.1, Volume 1 Part F, 1.3).
    LinkDown(u8),
    /// No link was made, for this reason.
    LinkFailed(u8),
    /// SDUs may be sent on the channel to that PSM, each of so many octets at most.
    ChannelOpen(Psm, u16),
    /// The channel to that PSM was closed, or not made.
    ChannelClosed(Psm, CloseCause),
    /// An SDU came in on the channel to that PSM.
    Sdu(Psm, &'a [u8]),
    /// The peer told its features, or that it does not tell them.
    Features(Option<u32>),
    /// It was asked for its features as often as may be, and did not answer.
    FeaturesLost,
    /// The timer fired.
    Timer,
}
