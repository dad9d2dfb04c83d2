//! Why a stream could not be viewed to its end.

ghost use Rattle.std.specs.Prelude.{◌≡◌};

use bt_base::NoMemory;
use std::alloc::AllocError;
use thiserror::Error;

/// Why octets are refused.
#[derive(Clone, Copy, Debug, PartialEq, Eq)]
pub enum ViewRefusal {
    /// An octet that no packet begins with stands where a packet should begin.
    BadIndicator,
    /// The input ends within a packet; the place is that of its indicator.
    Truncated,
    /// The input goes past its greatest length, or ends within a packet that would. The place is
    /// that length.
    TooLong,
    /// The first octet of an entry of a capture is no tag.
    BadTag,
    /// The payload of an entry of a capture is not one of its tag.
    BadRecord,
    /// The identification of a btsnoop file is another.
    BadMagic,
    /// The version of a btsnoop file is not 1.
    BadVersion,
    /// The datalink of a btsnoop file is not 1002, packets as on the UART.
    BadLink,
    /// A record of a btsnoop file includes more than 65,540 octets, or more than its packet had. The
    /// place is that of the record.
    BadLength,
}

/// Why a view stopped before the end of a stream of whole packets.
#[derive(Debug, Drop, Error)]
pub enum ViewFault {
    /// The octets are refused, at that place.
    #[error("{0:?} at octet {1}")]
    Refused(ViewRefusal, u64),
    /// The source failed.
    #[error("the source failed")]
    ReadFault,
    /// The sink failed.
    #[error("the sink failed")]
    WriteFault,
    /// No memory could be had.
    #[error("no memory could be had")]
    NoMemory,
}

impl From<NoMemory> for ViewFault {
    ghost use Rattle.h4_view.specs.declared.refusal.ViewFault.TheVariants.{NoMemory};

    ghost from_gives = { λ _ fault. fault ≡ NoMemory };

    fn from(_error: NoMemory) -> ViewFault {
        ViewFault::NoMemory
    }
}

impl From<AllocError> for ViewFault {
    ghost use Rattle.h4_view.specs.declared.refusal.ViewFault.TheVariants.{NoMemory};

    ghost from_gives = { λ _ fault. fault ≡ NoMemory };

    fn from(_error: AllocError) -> ViewFault {
        ViewFault::NoMemory
    }
}

impl ViewRefusal {
    ghost use Rattle.h4_view.specs.Lines.{refusal_name};

    /// Its name in a refusal line.
    pub(crate) fn name(self) -> &'static str
        ensures { result.now ≡ refusal_name self }
    {
        match self {
            ViewRefusal::BadIndicator => "BadIndicator",
            ViewRefusal::Truncated => "Truncated",
            ViewRefusal::TooLong => "TooLong",
            ViewRefusal::BadTag => "BadTag",
            ViewRefusal::BadRecord => "BadRecord",
            ViewRefusal::BadMagic => "BadMagic",
            ViewRefusal::BadVersion => "BadVersion",
            ViewRefusal::BadLink => "BadLink",
            ViewRefusal::BadLength => "BadLength",
        }
    }
}
