ghost use Rattle.std.specs.Prelude.{◌≡◌};
ghost use Rattle.ertm_model.specs.Reasons.{number_of};

use thiserror::Error;

/// Why a machine closed its channel. The number 2 stands for nothing.
#[derive(Clone, Copy, Debug, PartialEq, Eq, Error)]
pub enum ErtmReason {
    /// 1: a ReqSeq that no frame on its way can have.
    #[error("a ReqSeq of no frame on its way")]
    BadReqSeq,
    /// 3: a selective reject, which was not agreed on.
    #[error("a selective reject")]
    Srej,
    /// 4: a segment that has no place in what came before it.
    #[error("a segment without a place")]
    BadSegment,
    /// 5: a frame or a poll was given as often as may be, and is asked for once more.
    #[error("too many tries")]
    RetryLimit,
    /// 6: an SDU above the greatest that the side takes.
    #[error("an SDU that is too long")]
    TooLongSdu,
    /// 7: a PDU that is no frame, though its check word holds.
    #[error("a PDU that is no frame")]
    BadFrame,
}

impl ErtmReason {
    /// The number of the reason.
    pub fn number(self) -> u8
        ensures { result ≡ number_of self }
    {
        match self {
            ErtmReason::BadReqSeq => 1,
            ErtmReason::Srej => 3,
            ErtmReason::BadSegment => 4,
            ErtmReason::RetryLimit => 5,
            ErtmReason::TooLongSdu => 6,
            ErtmReason::BadFrame => 7,
        }
    }
}
