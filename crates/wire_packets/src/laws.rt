//! Laws of packets and of streams. Each is the contract of a function that does nothing.

ghost use Rattle.wire_packets.specs.Laws.{OneAnswer, WrittenIsRead, SlipIsFound, FindsWhatReads, AnyPiecesGive};

/// Octets have one answer: one packet that they spell, or one refusal.
pub fn one_answer()
    ensures { OneAnswer }
{}

/// A packet that was written is the one that is read.
pub fn written_is_read()
    ensures { WrittenIsRead }
{}

/// A packet on the line is found again.
pub fn slip_is_found()
    ensures { SlipIsFound }
{}

/// A decoder finds what the stream reads as.
pub fn finds_what_reads()
    ensures { FindsWhatReads }
{}

/// However a stream is cut into pieces, a decoder gives the same.
pub fn any_pieces_give()
    ensures { AnyPiecesGive }
{}
