/// What is said of the end of a channel (Core 5.1, Volume 3 Part A, 4.6 and 4.7).
#[derive(Clone, Copy, Debug, PartialEq, Eq)]
pub enum Word {
    /// The host asks for its end.
    AsksEnd,
    /// The host answers the peer's request for its end.
    AnswersEnd,
    /// The peer answers the host's request.
    EndAnswered,
    /// The host waits for that answer no longer.
    EndForgone,
}
