//! Laws of btsnoop files and of readers. Each is the contract of a function that does nothing.

ghost use Rattle.btsnoop.specs.Laws.{NoRecordBeginsAnother, OneReading, EachIsRead, FilesAreRead, AnyPiecesAreRead, GivenComeFirst, WrittenIsRead, OneConversion, CapturesAreConverted};

/// No record's octets begin another's.
pub fn no_record_begins_another()
    ensures { NoRecordBeginsAnother }
{}

/// Octets are read in one way.
pub fn one_reading()
    ensures { OneReading }
{}

/// Each list of octets is read.
pub fn each_is_read()
    ensures { EachIsRead }
{}

/// The octets that are read to their end are the files.
pub fn files_are_read()
    ensures { FilesAreRead }
{}

/// However octets are cut into pieces, a reader gives the records that they are read as.
pub fn any_pieces_are_read()
    ensures { AnyPiecesAreRead }
{}

/// The records that a reader gave are the first, however the octets go on.
pub fn given_come_first()
    ensures { GivenComeFirst }
{}

/// A file that is written is read again as its records, in whatever pieces.
pub fn written_is_read()
    ensures { WrittenIsRead }
{}

/// A capture is read in one way, so it has one file for each of its hosts.
pub fn one_conversion()
    ensures { OneConversion }
{}

/// A whole capture, no longer than what is read of an input, is read to its end: no conversion of it is
/// refused, and one without a fault gives the file of the host's packets.
pub fn captures_are_converted()
    ensures { CapturesAreConverted }
{}
