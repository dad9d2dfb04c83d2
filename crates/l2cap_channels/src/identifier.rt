//! Identifiers of signalling commands.

ghost use Rattle.std.specs.Prelude.{◌≡◌, ◌≤◌};
ghost use Rattle.channel_model.specs.Asking.{next_identifier};

use std::marker::Model;

/// The identifier of a signalling command, which is never 0 (Core 5.1, Volume 3 Part A, 4). A clause
/// sees its number.
#[derive(Clone, Copy)]
pub(crate) struct Identifier {
    raw: u8,
}

impl Model for Identifier {
    ghost use Rattle.std.specs.Prelude.{ℕ, ◌≤◌};

    ghost Value = { ℕ };

    ghost view = { λ identifier. identifier.raw };

    ghost invariant = { λ identifier. 1 ≤ identifier.raw };

    ghost inverse = { λ number. record { raw = number } };
}

impl Identifier {
    /// The first own one of a link.
    pub(crate) fn first() -> Identifier
        ensures { result ≡ 1 }
    {
        Identifier { raw: 1 }
    }

    /// The identifier of that number.
    pub(crate) fn of(raw: u8) -> Identifier
        requires { 1 ≤ raw }
        ensures { result ≡ raw }
    {
        Identifier { raw }
    }

    /// The own one that is given after it: after 255 comes 1.
    pub(crate) fn next(&self) -> Identifier
        ensures { result ≡ next_identifier self.now }
    {
        if self.raw == 255 {
            return Identifier { raw: 1 };
        }
        Identifier { raw: self.raw + 1 }
    }

    /// Its number.
    pub(crate) fn get(&self) -> u8
        ensures value { result ≡ self.now }
        ensures some { 1 ≤ result }
    {
        self.raw
    }
}
