/// How far an end has come with the establishment of its link (Core 5.1, Volume 4 Part D, section 8).
#[derive(Clone, Copy, Debug)]
pub enum Stage {
    /// It waits for SYNC RESPONSE (8.1).
    Uninitialized,
    /// It waits for CONFIG RESPONSE (8.2).
    Initialized,
    /// Units are sent and accepted (8.3).
    Active,
    /// It heard SYNC when it was active, and is closed for good.
    Reset,
}

/// A link control message (8.4 to 8.7). The number is the window of the configuration field (8.8), 0
/// to 7.
#[derive(Clone, Copy, Debug, Default)]
pub enum LinkMessage {
    /// What an end says first.
    #[default]
    Sync,
    SyncResponse,
    Config(u8),
    ConfigResponse(u8),
}

/// Which way a packet goes over the line: from the first end to the second, or back.
#[derive(Clone, Copy, Debug)]
pub enum Way {
    Forth,
    Back,
}
