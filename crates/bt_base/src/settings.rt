//! The settings of a host.

ghost use Rattle.std.specs.Prelude.{◌≤◌};

/// The transport over which objects are pushed.
#[derive(Clone, Copy, Debug, PartialEq, Eq)]
pub enum Transport {
    /// An L2CAP channel in enhanced retransmission mode.
    L2cap,
    /// An RFCOMM channel.
    Rfcomm,
}

/// The transports that a server offers.
#[derive(Clone, Copy, Debug, PartialEq, Eq)]
pub enum Serves {
    Both,
    L2cap,
    Rfcomm,
}

/// What a host is set to. Each number is within its range, always.
#[derive(Clone, Copy, Debug, PartialEq, Eq)]
pub struct Settings {
    /// The transport that a client pushes over.
    pub transport: Transport,
    /// The transports that a server offers.
    pub serves: Serves,
    /// The largest payload that an L2CAP channel takes, in octets.
    pub mtu: u16,
    /// The largest segment of an enhanced channel, in octets.
    pub mps: u16,
    /// How many frames of an enhanced channel may be unacknowledged.
    pub window: u8,
    /// How often one thing is sent at most.
    pub tries: u8,
    /// How many credits an RFCOMM channel grants at most.
    pub credits: u8,
    /// The largest OBEX packet, in octets.
    pub obex: u16,
    /// Whether a client asks for single response mode; a server grants it over L2CAP.
    pub srm: bool,
    pub ghost mtu_low: { 255 ≤ mtu },
    pub ghost mtu_high: { mtu ≤ 32767 },
    pub ghost mps_low: { 48 ≤ mps },
    pub ghost mps_high: { mps ≤ 1010 },
    pub ghost window_low: { 1 ≤ window },
    pub ghost window_high: { window ≤ 63 },
    pub ghost tries_low: { 2 ≤ tries },
    pub ghost tries_high: { tries ≤ 20 },
    pub ghost credits_low: { 1 ≤ credits },
    pub ghost credits_high: { credits ≤ 40 },
    pub ghost obex_low: { 255 ≤ obex },
    pub ghost obex_high: { obex ≤ 32767 },
}

impl Settings {
    ghost use Rattle.std.specs.Prelude.{◌≡◌};
    ghost use Rattle.bt_base.specs.PlainSettings.{IsPlain};

    /// What a host is set to where nothing else is said.
    pub fn plain() -> Settings
        ensures { IsPlain result }
    {
        Settings {
            transport: Transport::L2cap,
            serves: Serves::Both,
            mtu: 1024,
            mps: 1010,
            window: 10,
            tries: 4,
            credits: 7,
            obex: 1024,
            srm: false,
        }
    }
}
