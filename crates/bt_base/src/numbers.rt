//! Small numbers of the standard that are checked once, where they come in. A clause sees each as
//! the number (an address as its octets).

ghost use Rattle.std.specs.Prelude.{◌≡◌, ◌↔◌, List, ℕ, length, IsSome, IfSome};
ghost use Rattle.bt_base.specs.Numbers.{IsHandle, IsCid, IsPsm, IsDlci};

use std::marker::Model;

/// A connection handle: 12 bits, of which the values above 0x0EFF are reserved
/// (Core 5.1, Volume 2 Part E, 5.4.2).
#[derive(Clone, Copy, Debug, PartialEq, Eq, PartialOrd, Ord, Hash)]
pub struct Handle {
    raw: u16,
}

impl Model for Handle {
    ghost Value = { ℕ };

    ghost view = { λ handle. handle.raw };

    ghost invariant = { λ handle. IsHandle handle.raw };

    ghost inverse = { λ number. record { raw = number } };
}

impl Handle {
    /// The handle of that number, for exactly the numbers up to 0x0EFF.
    pub fn of(raw: u16) -> Option<Handle>
        ensures exactly { IsSome result ↔ IsHandle raw }
        ensures value { IfSome result (λ handle. handle ≡ raw) }
    {
        if raw <= 0x0EFF {
            Some(Handle { raw })
        } else {
            None
        }
    }

    /// Its number.
    pub fn get(&self) -> u16
        ensures value { result ≡ self.now }
        ensures range { IsHandle result }
    {
        self.raw
    }
}

/// A channel identifier that names a channel: 0x0001 for signalling, or one from 0x0040 on
/// (Core 5.1, Volume 3 Part A, 2.1).
#[derive(Clone, Copy, Debug, PartialEq, Eq, PartialOrd, Ord, Hash)]
pub struct Cid {
    raw: u16,
}

impl Model for Cid {
    ghost Value = { ℕ };

    ghost view = { λ cid. cid.raw };

    ghost invariant = { λ cid. IsCid cid.raw };

    ghost inverse = { λ number. record { raw = number } };
}

impl Cid {
    /// The identifier of that number, for exactly 0x0001 and the numbers from 0x0040 on.
    pub fn of(raw: u16) -> Option<Cid>
        ensures exactly { IsSome result ↔ IsCid raw }
        ensures value { IfSome result (λ cid. cid ≡ raw) }
    {
        if raw == 0x0001 || raw >= 0x0040 {
            Some(Cid { raw })
        } else {
            None
        }
    }

    /// Its number.
    pub fn get(&self) -> u16
        ensures value { result ≡ self.now }
        ensures range { IsCid result }
    {
        self.raw
    }
}

/// A protocol and service multiplexer: its lowest octet is odd and the lowest bit of its other
/// octet is clear (Core 5.1, Volume 3 Part A, 4.2).
#[derive(Clone, Copy, Debug, PartialEq, Eq, PartialOrd, Ord, Hash)]
pub struct Psm {
    raw: u16,
}

impl Model for Psm {
    ghost Value = { ℕ };

    ghost view = { λ psm. psm.raw };

    ghost invariant = { λ psm. IsPsm psm.raw };

    ghost inverse = { λ number. record { raw = number } };
}

impl Psm {
    /// The multiplexer of that number, for exactly the numbers whose bits 0 and 8 are 1 and 0.
    pub fn of(raw: u16) -> Option<Psm>
        ensures exactly { IsSome result ↔ IsPsm raw }
        ensures value { IfSome result (λ psm. psm ≡ raw) }
    {
        if raw & 0x0101 == 0x0001 {
            Some(Psm { raw })
        } else {
            None
        }
    }

    /// Its number.
    pub fn get(&self) -> u16
        ensures value { result ≡ self.now }
        ensures range { IsPsm result }
    {
        self.raw
    }
}

/// A data link connection identifier of RFCOMM: 0 for the control channel, or 2 to 61
/// (RFCOMM 1.2, 5.4).
#[derive(Clone, Copy, Debug, PartialEq, Eq, PartialOrd, Ord, Hash)]
pub struct Dlci {
    raw: u8,
}

impl Model for Dlci {
    ghost Value = { ℕ };

    ghost view = { λ dlci. dlci.raw };

    ghost invariant = { λ dlci. IsDlci dlci.raw };

    ghost inverse = { λ number. record { raw = number } };
}

impl Dlci {
    /// The identifier of that number, for exactly 0 and 2 to 61.
    pub fn of(raw: u8) -> Option<Dlci>
        ensures exactly { IsSome result ↔ IsDlci raw }
        ensures value { IfSome result (λ dlci. dlci ≡ raw) }
    {
        if raw == 0 || (2..=61).contains(&raw) {
            Some(Dlci { raw })
        } else {
            None
        }
    }

    /// Its number.
    pub fn get(&self) -> u8
        ensures value { result ≡ self.now }
        ensures range { IsDlci result }
    {
        self.raw
    }
}

/// A device address, its six octets in the order of the wire: the lowest first
/// (Core 5.1, Volume 2 Part B, 1.2).
#[derive(Clone, Copy, Debug, PartialEq, Eq)]
pub struct BdAddr {
    octets: [u8; 6],
}

impl Model for BdAddr {
    ghost Value = { List ℕ };

    ghost view = { λ address. address.octets };

    ghost inverse = { λ list. record { octets = list } };
}

impl BdAddr {
    /// The address of those octets, for exactly six octets.
    pub fn of(octets: &[u8]) -> Option<BdAddr>
        ensures exactly { IsSome result ↔ (length octets.now ≡ 6) }
        ensures value { IfSome result (λ address. address ≡ octets.now) }
    {
        match octets {
            [a, b, c, d, e, f] => Some(BdAddr {
                octets: [*a, *b, *c, *d, *e, *f],
            }),
            _ => None,
        }
    }

    /// Its six octets, the lowest first.
    pub fn get(&self) -> [u8; 6]
        ensures value { result ≡ self.now }
        ensures six { length self.now ≡ 6 }
    {
        self.octets
    }
}
