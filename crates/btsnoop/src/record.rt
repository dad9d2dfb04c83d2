/// A record of a btsnoop file, whose octets are lent.
#[derive(Clone, Copy, Debug)]
pub struct Record<'a> {
    /// How many octets the packet had.
    pub original: u32,
    /// Bit 0: 0 for a packet from the host, 1 for one to it. Bit 1: 1 for commands and events.
    /// Further bits are read and written as they stand.
    pub flags: u32,
    /// How many packets were lost before this one.
    pub drops: u32,
    /// When the packet was seen, in microseconds since midnight of the first day of year 0.
    pub time: u64,
    /// The octets that were kept of the packet, its indicator first.
    pub octets: &'a [u8],
}
