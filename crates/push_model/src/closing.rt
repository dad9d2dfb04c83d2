/// Why a channel was closed, as its user sees it (Core 5.1, Volume 3 Part A, 4 and 8).
#[derive(Clone, Copy, Debug, PartialEq, Eq)]
pub enum CloseCause {
    /// The peer asked for its end.
    Peer,
    /// The peer answered the request for it with this result.
    Refused(u16),
    /// The two sides did not agree on its options.
    NoAgreement,
    /// Something was sent as often as may be, and was not answered.
    RetryLimit,
    /// Its retransmission machine refused what came in, with the reason of this number.
    Broken(u8),
    /// The client itself asked for its end.
    Own,
}
