//! Laws of requests, for every question. They speak of no call: the contract of `reply` ties it to
//! the same definitions.

ghost use Rattle.sdp_server.specs.Laws.{AnswersSearches, ReadsAgain};

/// A request in its shortest form is read as what it asks.
pub fn written_is_read()
    ensures { ReadsAgain }
{}

/// A search for attributes is answered by the part of its answer that it asks for.
pub fn searches_are_answered()
    ensures { AnswersSearches }
{}
