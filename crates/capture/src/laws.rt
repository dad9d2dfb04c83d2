//! Laws of the definitions, for every capture.

ghost use Rattle.capture.specs.EntryLaws.{NoEntryBeginsAnother, OneCapture};
ghost use Rattle.capture.specs.EntryReading.{OneFront};
ghost use Rattle.capture.specs.CaptureReading.{OneReading};
ghost use Rattle.capture.specs.Laws.{MovesMore, LinksMore, OutstandingMore, PdusMore, OctetsInParts, MovesInParts, LinksInParts, EntryLinksMore, WithinMore, PeakMore, UnderWayMore, WordsMore};

/// One entry more is a packet of its host, or none.
pub fn entry_is_packet_or_none()
    ensures { MovesMore }
{}

/// One packet more leads the links of its host on.
pub fn packet_leads_links_on()
    ensures { LinksMore }
{}

/// The packets outstanding on a link with one packet more.
pub fn packet_changes_outstanding()
    ensures { OutstandingMore }
{}

/// The PDUs of a link with one packet more.
pub fn packet_completes_pdus()
    ensures { PdusMore }
{}

/// One entry more leads the links of a host on where it is a packet of the host.
pub fn entry_leads_links_on()
    ensures { EntryLinksMore }
{}

/// A host stays within the buffers where it does so after one entry more.
pub fn buffers_stay_within()
    ensures { WithinMore }
{}

/// The peak of the buffers with one entry more.
pub fn peak_with_more()
    ensures { PeakMore }
{}

/// The push that is under way after one entry more.
pub fn push_under_way_with_more()
    ensures { UnderWayMore }
{}

/// The words that were done after one entry more.
pub fn words_with_more()
    ensures { WordsMore }
{}

/// The octets of a capture in two parts.
pub fn octets_in_parts()
    ensures { OctetsInParts }
{}

/// The packets of a host in two parts of a capture.
pub fn packets_in_parts()
    ensures { MovesInParts }
{}

/// The links of a host in two parts of a capture.
pub fn links_in_parts()
    ensures { LinksInParts }
{}

/// No entry's octets begin another's.
pub fn no_entry_begins_another()
    ensures { NoEntryBeginsAnother }
{}

/// A capture is read in one way.
pub fn captures_are_read_in_one_way()
    ensures { OneCapture }
{}

/// What is read at the front of octets is one thing: an entry, or one refusal.
pub fn fronts_are_read_in_one_way()
    ensures { OneFront }
{}

/// Octets are read in one way: as a capture, or up to their first refusal.
pub fn octets_are_read_in_one_way()
    ensures { OneReading }
{}
