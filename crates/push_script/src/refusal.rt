//! Why a scenario is refused.

ghost use Rattle.std.specs.Prelude.{◌≡◌};
ghost use Rattle.push_script.specs.Refusals.{refusal_name};

use bt_base::NoMemory;
use thiserror::Error;

/// Why a line of a scenario is refused.
#[derive(Clone, Copy, Debug, PartialEq, Eq)]
pub enum ScriptRefusal {
    /// The line has not the shape that its key or its word wants.
    BadLine,
    /// No key has that name.
    UnknownKey,
    /// The key was stated before.
    Repeated,
    /// A number, or the length of a name, is outside its range.
    OutOfRange,
    /// The keys end without a transport.
    NoTransport,
    /// The keys end without an object.
    NoObject,
    /// There are 64 objects already.
    TooManyObjects,
    /// The word loses, changes or repeats frames, which RFCOMM does not recover.
    LossyRfcomm,
    /// The text is not UTF-8.
    NotUtf8,
    /// The text is longer than 1,048,576 octets.
    TooLong,
}

impl ScriptRefusal {
    /// Its name in the line that tells of it.
    pub fn name(self) -> &'static str
        ensures { result.now ≡ refusal_name self }
    {
        match self {
            ScriptRefusal::BadLine => "BadLine",
            ScriptRefusal::UnknownKey => "UnknownKey",
            ScriptRefusal::Repeated => "Repeated",
            ScriptRefusal::OutOfRange => "OutOfRange",
            ScriptRefusal::NoTransport => "NoTransport",
            ScriptRefusal::NoObject => "NoObject",
            ScriptRefusal::TooManyObjects => "TooManyObjects",
            ScriptRefusal::LossyRfcomm => "LossyRfcomm",
            ScriptRefusal::NotUtf8 => "NotUtf8",
            ScriptRefusal::TooLong => "TooLong",
        }
    }
}

/// Why a text gives no scenario.
#[derive(Clone, Copy, Debug, PartialEq, Eq, Drop, Error)]
pub enum ScriptFault {
    /// The text is refused, at that line, counted from 1; at line 0 where it is too long.
    #[error("line {0}: {1:?}")]
    Refused(u32, ScriptRefusal),
    /// No memory could be had.
    #[error("no memory could be had")]
    NoMemory,
}

/// Why a line was not taken.
#[derive(Clone, Copy, Debug, PartialEq, Eq)]
pub(crate) enum LineFault {
    Refused(ScriptRefusal),
    NoMemory,
}

impl From<NoMemory> for LineFault {
    ghost use Rattle.push_script.specs.declared.refusal.LineFault.TheVariants.{NoMemory};

    ghost from_gives = { λ _ fault. fault ≡ NoMemory };

    fn from(_error: NoMemory) -> LineFault {
        LineFault::NoMemory
    }
}

impl From<ScriptRefusal> for LineFault {
    ghost use Rattle.push_script.specs.declared.refusal.LineFault.TheVariants.{Refused};

    ghost from_gives = { λ refusal fault. fault ≡ Refused refusal };

    fn from(refusal: ScriptRefusal) -> LineFault {
        LineFault::Refused(refusal)
    }
}
