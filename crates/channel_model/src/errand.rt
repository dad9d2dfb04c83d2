/// What a host asks of its peer (Core 5.1, Volume 3 Part A, 4.2, 4.4, 4.6 and 4.10). A channel is named by the host's
/// own endpoint of it.
#[derive(Clone, Copy, Debug, PartialEq, Eq)]
pub enum Errand {
    /// That the channel be made.
    Connection { own: u16 },
    /// That the options of the channel be accepted.
    Configuration { own: u16 },
    /// That the channel end.
    Disconnection { own: u16 },
    /// Which features the peer has.
    Features,
}
