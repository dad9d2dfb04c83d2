use ertm_model::ErtmReason;

/// What is answered to an SDU that is submitted.
#[derive(Clone, Copy, Debug, PartialEq, Eq)]
pub enum Submit {
    /// It will be sent.
    Taken,
    /// A segment of the SDU before was not given yet.
    Busy,
}

/// What is answered to a frame.
#[derive(Clone, Copy, Debug, PartialEq, Eq)]
pub enum Heard<'a> {
    Nothing,
    /// An SDU came to its end with the frame.
    Sdu(&'a [u8]),
    /// The machine is closed.
    Closed(ErtmReason),
}
