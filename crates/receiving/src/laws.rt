//! Laws of a host that is fed a stream. Each is the contract of a function that does nothing.

ghost use Rattle.receiving.specs.Laws.{NothingIsHeldBack, StreamsAreHeard, TurnsAreExact};

/// A host that has done all that it can, and had room for all that it said, says and does nothing more by itself once that was taken.
pub fn nothing_is_held_back<S>()
    ensures { NothingIsHeldBack S }
{}

/// A stream of whole packets within the greatest length is heard to its end, packet by packet, unless a port fails or a packet says that
/// the controller is at fault.
pub fn streams_are_heard<S>()
    ensures { StreamsAreHeard S }
{}

/// Turn for turn a host puts out exactly the octets that its packets and the answers of its port lead to: behind each packet the pieces
/// that wait, then its PDUs, then a command, and then what ends its link or asks for one.
pub fn turns_are_exact<S>()
    ensures { TurnsAreExact S }
{}
