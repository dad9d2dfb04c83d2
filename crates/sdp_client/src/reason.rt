//! What a query answers.

use sdp_elements::Target;

/// Why a reply is refused. `WrongTransaction` leaves the query as it was; each of the others ends
/// it.
#[derive(Clone, Copy, Debug, PartialEq, Eq)]
pub enum QueryReason {
    /// The octets are no reply to the request, or the joined answer is none.
    BadReply,
    /// The server answered with this code of an error.
    ErrorCode(u16),
    /// No reply is awaited, or the reply is that to another request.
    WrongTransaction,
    /// The joined answer has more than 4,096 octets.
    TooLong,
}

/// What a query makes of a reply.
#[derive(Clone, Copy, Debug, PartialEq, Eq)]
pub enum Found {
    /// A part of the answer; the request for the next part waits to be written.
    More,
    /// The answer is whole, and names at least one way to the service.
    Service(Target),
    /// The answer is whole, and names no way to the service.
    NoService,
    Refused(QueryReason),
}
