//! Laws of packets, of streams and of framers. Each is the contract of a function that does
//! nothing.

ghost use Rattle.h4_framing.specs.Laws.{NoSpellingBeginsAnother, WrittenIsRead, OneReading, EachStreamIsRead, SoundStreamBegins, FaultIsFirstPlace, NewAccounts, TakingAccounts, AnyPiecesAccount, EndAccounts, GivenComeFirst};

/// No packet's spelling begins another's.
pub fn no_spelling_begins_another()
    ensures { NoSpellingBeginsAnother }
{}

/// What is written is read again, whatever stands behind it.
pub fn written_is_read()
    ensures { WrittenIsRead }
{}

/// A stream is read in one way.
pub fn one_reading()
    ensures { OneReading }
{}

/// Each list of octets is read.
pub fn each_stream_is_read()
    ensures { EachStreamIsRead }
{}

/// What ends behind its last packet or within a packet begins a list of packets.
pub fn sound_stream_begins()
    ensures { SoundStreamBegins }
{}

/// A fault stands at the first place where the stream begins no list of packets.
pub fn fault_is_first_place()
    ensures { FaultIsFirstPlace }
{}

/// A new framer accounts for nothing.
pub fn new_accounts()
    ensures { NewAccounts }
{}

/// A framer accounts for each piece that it takes.
pub fn taking_accounts()
    ensures { TakingAccounts }
{}

/// However a stream is cut into pieces, a framer accounts for all of it.
pub fn any_pieces_account()
    ensures { AnyPiecesAccount }
{}

/// At the end a framer's packets are those of all that it was fed.
pub fn end_accounts()
    ensures { EndAccounts }
{}

/// The packets that a framer gave are the first of its stream, however that goes on.
pub fn given_come_first()
    ensures { GivenComeFirst }
{}
