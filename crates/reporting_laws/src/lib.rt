//! What a client in code tells of its push is read off what its maker calls of it and the units that move between it and its controller.
#![tactic(auto)]

ghost use Rattle.reporting_laws.specs.Reporting.{ClientsReport};

/// Whatever a maker called of a new `ClientHost`, in any order, one packet a piece, where by the units that moved its controller took one packet more whenever
/// the host was told a PDU, or its maker told it something: what `outcome` answers behind these calls is read off them and the units that moved.
///
/// It is the first cause of all that happened to the client as it lived by these units. A push is done or refused, or found no service, exactly where an SDU says so that
/// the client heard since the push began and ahead of which nothing since then showed an outcome; a cancel behind the final PUT shows none. Where it found no
/// service, with that SDU an answer of service discovery was whole that names no way over the transport.
///
/// One thing that came with the calls since the last `push` brought the outcome about: a piece of a PDU, an end of its link, a link that was not made, `on_timer` or
/// `cancel`, each as the outcome may come of it. And where an SDU says it, with one call since then a piece of a PDU was fed with which that PDU was whole; by the
/// talk of the link one of the SDUs that had come in on the channel of that PDU says so.
pub fn clients_report<P>()
    ensures { ClientsReport P }
{}
