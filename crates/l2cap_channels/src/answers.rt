/// What is answered to an SDU that is to be sent.
#[derive(Clone, Copy, Debug, PartialEq, Eq)]
pub enum SendAnswer {
    /// It waits to be given.
    Taken,
    /// The SDU before still waits.
    Busy,
    /// The channel is not open.
    NotOpen,
}
