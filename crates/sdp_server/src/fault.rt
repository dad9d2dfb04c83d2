//! Why a request is answered by an error.

/// The codes of error replies (Core 5.1, Volume 3 Part B, 4.4.1), as they are judged: first the
/// size, then the syntax, then the handle and then the continuation state.
#[derive(Clone, Copy, Debug, PartialEq, Eq)]
pub enum ErrorCode {
    /// No service record has the handle.
    InvalidHandle = 2,
    /// The parameters are none of a request.
    InvalidSyntax = 3,
    /// The octets are no PDU.
    InvalidSize = 4,
    /// The continuation state is none that this server gave.
    InvalidContinuation = 5,
}
