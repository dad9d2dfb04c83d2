/// A packet whose octets are lent (Core 5.1, Volume 2 Part E, 5.4). Numbers are as they stand in
/// the packet.
#[derive(Clone, Copy, Debug)]
pub enum Unit<'a> {
    /// Indicator 01: a command with its opcode and parameters.
    Command { opcode: u16, params: &'a [u8] },
    /// Indicator 02: ACL data with the word of handle and flags.
    Acl { word: u16, octets: &'a [u8] },
    /// Indicator 03: synchronous data with the word of handle and flags.
    Sync { word: u16, octets: &'a [u8] },
    /// Indicator 04: an event with its code and parameters.
    Event { code: u8, params: &'a [u8] },
}
