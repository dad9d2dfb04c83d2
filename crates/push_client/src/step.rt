//! The steps of a push.

use bt_base::Psm;
use push_terms::Outcome;

/// What a client asks of its host next.
#[derive(Clone, Copy, Debug, PartialEq, Eq)]
pub enum Step {
    /// Nothing: no push goes on, or the next step awaits an event or the end of the last step.
    Wait,
    /// A link is to be made.
    MakeLink,
    /// The peer's features are to be asked for.
    AskFeatures,
    /// A channel to that PSM is to be made.
    OpenChannel(Psm),
    /// The octets that `PushClient::octets` lends are to be sent as one SDU, on the channel to that PSM.
    SendSdu(Psm),
    /// The channel to that PSM is to be closed, or its making given up.
    CloseChannel(Psm),
    /// The link is to be broken.
    BreakLink,
    /// The push has ended. It is told once.
    Ended(Outcome),
    /// The shelf found no memory. The client does nothing any more.
    NoMemory,
}
