//! Laws of queries, for every answer. They speak of no call: the contracts of the calls tie these to
//! the same definitions.

ghost use Rattle.sdp_client.specs.Laws.{FindsTheServer, FindsWhatIsServed, PartsJoin};

/// The parts of an answer, asked for one after the other in whatever sizes, are judged as the whole
/// answer.
pub fn parts_join()
    ensures { PartsJoin }
{}

/// What is read off the answer of a server is the way to the service that its record names.
pub fn found_is_served()
    ensures { FindsWhatIsServed }
{}

/// A query that asks a server of Object Push finds the way to its service at the first reply.
pub fn server_is_found()
    ensures { FindsTheServer }
{}
