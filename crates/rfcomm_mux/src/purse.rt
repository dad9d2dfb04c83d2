//! The account of the user channel, which tells how many credits it holds.

ghost use Rattle.std.specs.Prelude.{◌≡◌, ◌↔◌, ◌+◌, ◌-◌, ◌<◌, ◌≤◌, Err, IsTrue, OnOk, OnErr};
ghost use Rattle.rfcomm_credits.specs.Accounts.{grant_of};

use rfcomm_credits::{Account, AccountRefusal};
use std::marker::Model;

/// An account, and how many credits it holds (RFCOMM 1.2, 6.5). A clause sees the account.
#[derive(Drop)]
pub(crate) struct Purse {
    account: Account,
    held: u16,
}

impl Model for Purse {
    ghost use Rattle.std.specs.Prelude.{◌≡◌};
    ghost use Rattle.rfcomm_credits.specs.Accounts.{Credits};

    ghost Value = { Credits };

    ghost view = { λ purse. purse.account };

    ghost invariant = { λ purse. purse.held ≡ purse.account.held };
}

impl Purse {
    /// The account at the start of a channel: none is held, and the peer was granted `first`. The peer is to have `cap` credits at
    /// most.
    pub(crate) fn new(cap: u8, first: u8) -> Purse
        requires some { 1 ≤ cap }
        requires few { cap ≤ 40 }
        requires within { first ≤ cap }
        ensures { result ≡ record { cap = cap; held = 0; peer = first } }
    {
        Purse {
            account: Account::new(cap, first),
            held: 0,
        }
    }

    /// How many credits are held.
    pub(crate) fn held(&self) -> u16
        ensures { result ≡ self.now.held }
    {
        self.held
    }

    /// Whether a frame with information may go out.
    pub(crate) fn may_send(&self) -> bool
        ensures { IsTrue result ↔ (0 < self.now.held) }
    {
        self.account.may_send()
    }

    /// Notes that the peer granted `n` credits. `Overflow` where more than 65,535 would be held: then the account is as before.
    pub(crate) fn granted(&mut self, n: u8) -> Result<(), AccountRefusal>
        ensures refused { (result ≡ Err AccountRefusal.Overflow) ↔ (65535 < self.old.held + n) }
        ensures one { OnErr result (result ≡ Err AccountRefusal.Overflow) }
        ensures account { OnOk result (self.new ≡ record self.old { held = self.old.held + n }) }
        ensures unchanged { OnErr result (self.new ≡ self.old) }
    {
        self.account.granted(n)?;
        self.held += u16::from(n);
        Ok(())
    }

    /// Notes that a frame with information went out, for one credit.
    pub(crate) fn spent(&mut self)
        requires { 0 < self.old.held }
        ensures { self.new ≡ record self.old { held = self.old.held - 1 } }
    {
        self.account.spent();
        self.held -= 1;
    }

    /// Notes that a frame with information came in, for one of the peer's credits. `Overdrawn` where the peer has none: then the
    /// account is as before.
    pub(crate) fn heard(&mut self) -> Result<(), AccountRefusal>
        ensures refused { (result ≡ Err AccountRefusal.Overdrawn) ↔ (self.old.peer ≡ 0) }
        ensures one { OnErr result (result ≡ Err AccountRefusal.Overdrawn) }
        ensures account { OnOk result (self.new ≡ record self.old { peer = self.old.peer - 1 }) }
        ensures unchanged { OnErr result (self.new ≡ self.old) }
    {
        self.account.heard()
    }

    /// How many credits the peer is to be granted now.
    pub(crate) fn to_grant(&self) -> u8
        ensures grant { result ≡ grant_of self.now }
        ensures within { self.now.peer + result ≤ self.now.cap }
    {
        self.account.to_grant()
    }

    /// Notes that the peer was granted the `n` credits that `to_grant` answers.
    pub(crate) fn gave(&mut self, n: u8)
        requires { n ≡ grant_of self.old }
        ensures { self.new ≡ record self.old { peer = self.old.peer + n } }
    {
        self.account.gave(n);
    }
}
