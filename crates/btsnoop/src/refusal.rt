/// Why octets are no btsnoop file, or a capture cannot be made one.
#[derive(Clone, Copy, Debug, PartialEq, Eq)]
pub enum SnoopRefusal {
    /// The identification of the file header is another.
    BadMagic = 1,
    /// The version of the file header is not 1.
    BadVersion = 2,
    /// The datalink of the file header is not 1002, packets as on the UART.
    BadLink = 3,
    /// A record includes more than 65,540 octets, or more than its packet had. The place is that of
    /// the record.
    BadLength = 4,
    /// The input ends within the file header, a record or an entry, whose place that is.
    Truncated = 5,
    /// The first octet of an entry of a capture is no tag.
    BadTag = 6,
    /// The payload of an entry of a capture is not exactly one packet.
    BadRecord = 7,
    /// The input goes past its greatest length, 67,108,864 octets, which is the place.
    TooLong = 8,
}
