/// How a channel carries its octets (Core 5.1, Volume 3 Part A, section 2.4).
#[derive(Clone, Copy, Debug, PartialEq, Eq)]
pub enum Mode {
    /// Basic L2CAP mode.
    Basic,
    /// Enhanced retransmission mode.
    Enhanced,
}

/// What a side wishes of a channel.
#[derive(Clone, Copy, Debug, PartialEq, Eq)]
pub struct Wish {
    pub mode: Mode,
    /// The greatest payload that the side takes, in octets.
    pub mtu: u16,
    /// The greatest piece of a payload that the side takes in one frame, in octets.
    pub mps: u16,
    /// How many frames may be on their way to the side.
    pub window: u8,
    /// How often one frame is sent at most.
    pub tries: u8,
}

/// What two sides agreed on, as one of them sees it.
#[derive(Clone, Copy, Debug, PartialEq, Eq)]
pub struct Agreed {
    pub mode: Mode,
    pub send_mtu: u16,
    pub receive_mtu: u16,
    pub send_mps: u16,
    pub receive_mps: u16,
    pub send_window: u8,
    pub receive_window: u8,
    pub tries: u8,
}
