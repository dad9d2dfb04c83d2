//! Laws of the spelling of packets, for every value. They speak of no call: the contracts of the
//! calls tie these to the same definitions.

ghost use Rattle.obex_headers.specs.Assembling.{AnyPieces};
ghost use Rattle.obex_headers.specs.Laws.{ReadsAgain, ReadsWhatIsSpelled, RefusesTheFirst, UnitsAgain};
ghost use Rattle.obex_headers.specs.Runs.{SpellsByStretches};

/// What was written header by header is read again as the same packet.
pub fn written_is_read()
    ensures { ReadsAgain }
{}

/// A reader gives a packet exactly where the octets are its spelling, within the maximum.
pub fn read_is_spelled()
    ensures { ReadsWhatIsSpelled }
{}

/// Of several headers the first that is none decides, and all before it are whole.
pub fn first_fault_decides()
    ensures { RefusesTheFirst }
{}

/// The units of a text are those that it was written with.
pub fn units_are_kept()
    ensures { UnitsAgain }
{}

/// The objects that packets spell, packet by packet, are those of the stretches into which the
/// packets fall.
pub fn objects_of_stretches()
    ensures { SpellsByStretches }
{}

/// However a stream is cut into pieces, an assembler gives its packets and no others, and refuses
/// it where octets begin no packet.
pub fn any_pieces()
    ensures { AnyPieces }
{}
