/// A packet of the three-wire transport (Core 5.1, Volume 4 Part D, section 4), whose payload is
/// lent.
#[derive(Clone, Copy, Debug)]
pub struct WirePacket<'a> {
    /// SeqNo: the number of a reliable packet, 0 to 7.
    pub seq: u8,
    /// AckNo: the number of the next reliable packet that is awaited, 0 to 7.
    pub ack: u8,
    /// Whether the packet is numbered and wants an acknowledgement.
    pub reliable: bool,
    /// The packet type: 0 acknowledgement, 1 command, 2 ACL data, 3 synchronous data, 4 event,
    /// 15 link control.
    pub kind: u8,
    /// What follows the header, at most 4,095 octets.
    pub payload: &'a [u8],
}
