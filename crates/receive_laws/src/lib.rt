//! What `receive` does with its stream is a run of a whole host over units, so what it stores is what the packets of the stream spell.
#![tactic(auto)]

ghost use Rattle.receive_laws.specs.Streams.{FreeBuffersSuffice, FreeStreamsAreQuiet, FreeStreamsComeInTurn, QuietStreamsComeInTurn, ReceivesCarried, ReceivesFramed, ReceivesSpelled, StreamsAreRuns};

/// Each packet of a stream comes in turn where at each PDU that the server is told of its ledger has a buffer free, however much it puts out.
pub fn free_buffers_suffice()
    ensures { FreeBuffersSuffice }
{}

/// What a new server does with a stream, packet by packet, is a run of it over the units that move.
pub fn streams_are_runs()
    ensures { StreamsAreRuns }
{}

/// Each packet of a stream comes in turn where by the packets that move a buffer is free at each PDU that comes, however much the host puts out.
pub fn free_streams_come_in_turn()
    ensures { FreeStreamsComeInTurn }
{}

/// Each packet of a stream comes in turn where by the packets that move the server has said all at each PDU that comes, or a buffer is free, and no call of
/// its inbox failed.
pub fn quiet_streams_come_in_turn()
    ensures { QuietStreamsComeInTurn }
{}

/// A stream at each PDU of which a buffer is free is such a one.
pub fn free_streams_are_quiet()
    ensures { FreeStreamsAreQuiet }
{}

/// What `receive` stores is exactly what the packets of its stream spell, on input that is orderly by these packets alone, over L2CAP.
pub fn receives_spelled()
    ensures { ReceivesSpelled }
{}

/// The same over RFCOMM, on input on which each frame of the client comes in order.
pub fn receives_framed()
    ensures { ReceivesFramed }
{}

/// Over RFCOMM its packets are a run of its server; and if nothing that came was lost as that lived through them, it stores exactly what they spell.
pub fn receives_carried()
    ensures { ReceivesCarried }
{}
