//! How a run ends.

ghost use Rattle.std.specs.Prelude.{◌≡◌};
ghost use Rattle.btpush_forms.specs.Status.{code_of};

/// How a run ends. The program ends with its number.
#[derive(Clone, Copy, Debug, PartialEq, Eq)]
pub enum Status {
    /// The mode ran to its end, and all is done.
    Ok,
    /// The mode ran to its end, and not all is done.
    SomeFailed,
    /// The words are no command line of the program.
    BadWords,
    /// The input is refused.
    InputRefused,
    /// The source failed.
    ReadFault,
    /// The sink or the trace failed.
    WriteFault,
    /// No memory could be had.
    NoMemory,
}

impl Status {
    /// The number with which the program ends, from 0 for `Ok` to 6 for `NoMemory`.
    pub fn code(self) -> u8
        ensures { result ≡ code_of self }
    {
        match self {
            Status::Ok => 0,
            Status::SomeFailed => 1,
            Status::BadWords => 2,
            Status::InputRefused => 3,
            Status::ReadFault => 4,
            Status::WriteFault => 5,
            Status::NoMemory => 6,
        }
    }
}
