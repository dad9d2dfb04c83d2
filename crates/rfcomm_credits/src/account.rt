//! The account of one side of a channel.

ghost use Rattle.std.specs.Prelude.{◌≡◌, ◌↔◌, ℕ, ◌+◌, ◌-◌, ◌<◌, ◌≤◌, List, [], ◌∷◌, ◌++◌, Ok, Err, IsTrue, OnOk, OnErr};
ghost use Rattle.rfcomm_credits.specs.Histories.{CreditEvent, Granted, Spent, Heard, Gave};
ghost use Rattle.rfcomm_credits.specs.Accounts.{Credits, grant_of, Tells};

use std::marker::Model;

/// Why a frame or a grant of the peer is not taken.
#[derive(Clone, Copy, Debug, PartialEq, Eq)]
pub enum AccountRefusal {
    /// The peer sent information without a credit.
    Overdrawn,
    /// More than 65,535 credits would be held.
    Overflow,
}

/// How many frames with information may go out on a channel, and how many the peer may send.
///
/// A clause sees the credits that are held, those that the peer has, and the most that it is to have.
#[derive(Debug, Drop)]
pub struct Account {
    cap: u8,
    held: u16,
    peer: u8,
}

impl Model for Account {
    ghost use Rattle.std.specs.Prelude.{◌≤◌};
    ghost use Rattle.rfcomm_credits.specs.Accounts.{Credits};

    ghost Value = { Credits };

    ghost view = { λ account. record { cap = account.cap; held = account.held; peer = account.peer } };

    ghost invariant = { λ account. (account.cap ≤ 40) × (account.peer ≤ account.cap) };
}

impl Account {
    /// The account at the start of a channel: none is held, and the peer was granted `first`. The
    /// peer is to have `cap` credits at most.
    pub fn new(cap: u8, first: u8) -> Account
        requires some { 1 ≤ cap }
        requires few { cap ≤ 40 }
        requires within { first ≤ cap }
        ensures account { result ≡ record { cap = cap; held = 0; peer = first } }
        ensures history { Tells first [] result }
    {
        Account {
            cap,
            held: 0,
            peer: first,
        }
    }

    /// Notes that the peer granted `n` credits. `Overflow` where more than 65,535 would be held: then
    /// the account is as before.
    pub fn granted(&mut self, n: u8) -> Result<(), AccountRefusal>
        ensures refused { (result ≡ Err AccountRefusal.Overflow) ↔ (65535 < self.old.held + n) }
        ensures one { OnErr result (result ≡ Err AccountRefusal.Overflow) }
        ensures account { OnOk result (self.new ≡ record self.old { held = self.old.held + n }) }
        ensures unchanged { OnErr result (self.new ≡ self.old) }
        ensures history { OnOk result ((first : ℕ) (past : List CreditEvent) → Tells first past self.old → Tells first (past ++ Granted n ∷ []) self.new) }
    {
        let held = self.held.checked_add(u16::from(n));
        self.held = held.ok_or(AccountRefusal::Overflow)?;
        Ok(())
    }

    /// Whether a frame with information may go out.
    pub fn may_send(&self) -> bool
        ensures { IsTrue result ↔ (0 < self.now.held) }
    {
        self.held > 0
    }

    /// Notes that a frame with information went out, for one credit.
    pub fn spent(&mut self)
        requires { 0 < self.old.held }
        ensures account { self.new ≡ record self.old { held = self.old.held - 1 } }
        ensures history { (first : ℕ) (past : List CreditEvent) → Tells first past self.old → Tells first (past ++ Spent ∷ []) self.new }
    {
        self.held -= 1;
    }

    /// Notes that a frame with information came in, for one of the peer's credits. `Overdrawn` where
    /// the peer has none: then the account is as before.
    pub fn heard(&mut self) -> Result<(), AccountRefusal>
        ensures refused { (result ≡ Err AccountRefusal.Overdrawn) ↔ (self.old.peer ≡ 0) }
        ensures one { OnErr result (result ≡ Err AccountRefusal.Overdrawn) }
        ensures account { OnOk result (self.new ≡ record self.old { peer = self.old.peer - 1 }) }
        ensures unchanged { OnErr result (self.new ≡ self.old) }
        ensures history { OnOk result ((first : ℕ) (past : List CreditEvent) → Tells first past self.old → Tells first (past ++ Heard ∷ []) self.new) }
    {
        if self.peer == 0 {
            return Err(AccountRefusal::Overdrawn);
        }
        self.peer -= 1;
        Ok(())
    }

    /// How many credits the peer is to be granted now: as many as it lacks, once it has half of them
    /// or fewer, and else none.
    pub fn to_grant(&self) -> u8
        ensures grant { result ≡ grant_of self.now }
        ensures within { self.now.peer + result ≤ self.now.cap }
    {
        if 2 * self.peer <= self.cap {
            self.cap - self.peer
        } else {
            0
        }
    }

    /// Notes that the peer was granted the `n` credits that `to_grant` answers.
    pub fn gave(&mut self, n: u8)
        requires { n ≡ grant_of self.old }
        ensures account { self.new ≡ record self.old { peer = self.old.peer + n } }
        ensures history { (first : ℕ) (past : List CreditEvent) → Tells first past self.old → Tells first (past ++ Gave n ∷ []) self.new }
    {
        self.peer += n;
    }
}
