use rfcomm_frames::Role;

/// What a host takes, and its place on RFCOMM.
#[derive(Clone, Copy, Debug, PartialEq, Eq)]
pub struct Party {
    /// The most octets that it takes of an SDU in one I-frame (Core 5.1, Volume 3 Part A, 5.4).
    pub frame: u16,
    /// The most octets that it takes of an OBEX packet (IrOBEX 1.5, 3.4.1).
    pub packet: u16,
    /// Whether it opened the multiplexer.
    pub role: Role,
    /// The user channel of the multiplexer.
    pub dlci: u8,
}
