/// The SAR of the start of an SDU (Core 5.1, Volume 3 Part A, 3.3.2).
pub(crate) const START: u8 = 1;

/// What an S-frame tells (Core 5.1, Volume 3 Part A, 3.3.2).
#[derive(Clone, Copy, Debug, PartialEq, Eq)]
pub enum SKind {
    /// Receiver ready.
    Rr,
    /// Reject: send again from ReqSeq on.
    Rej,
    /// Receiver not ready.
    Rnr,
    /// Selective reject.
    Srej,
}

/// A frame of enhanced retransmission mode (Core 5.1, Volume 3 Part A, 3.3). What it lends are octets
/// of its PDU.
#[derive(Clone, Copy, Debug, PartialEq, Eq)]
pub enum Frame<'a> {
    /// An information frame, which carries a segment of an SDU.
    I {
        /// TxSeq, the number of this frame, 0 to 63.
        tx: u8,
        /// The F bit: the answer to a poll.
        last: bool,
        /// ReqSeq, the number of the next frame that is awaited, 0 to 63.
        req: u8,
        /// SAR: 0 a whole SDU, 1 its start, 2 its end, 3 what continues it.
        sar: u8,
        /// How many octets the SDU has, in a start, and 0 in any other frame.
        total: u16,
        octets: &'a [u8],
    },
    /// A supervisory frame.
    S {
        kind: SKind,
        /// The P bit: an answer with the F bit is asked for.
        poll: bool,
        /// The F bit: the answer to a poll.
        last: bool,
        /// ReqSeq, the number of the next frame that is awaited, 0 to 63.
        req: u8,
    },
}
