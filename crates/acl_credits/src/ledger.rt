//! The ledger of a host.

ghost use Rattle.std.specs.Prelude.{◌≡◌, ◌↔◌, ℕ, ◌+◌, ◌-◌, ◌<◌, ◌≤◌, List, [], ◌∷◌, ◌++◌, Some, None, Ok, Err, IsTrue, OnOk, OnErr, if◌then◌else◌};
ghost use Rattle.acl_credits.specs.Histories.{BufferEvent, Sent, Completed, Closed};
ghost use Rattle.acl_credits.specs.Ledgers.{Account, packets_of, outstanding_on, less, without, SaysOutstanding};

use bt_base::Handle;
use std::marker::Model;

/// Why packets are not given back.
#[derive(Clone, Copy, Debug, PartialEq, Eq)]
pub enum LedgerRefusal {
    /// More packets than are outstanding on the handle.
    TooMany,
}

/// How many packets a controller holds for which link, out of the number that it takes.
///
/// A clause sees the total, and the one handle that packets are held for, with their number.
#[derive(Debug, Drop)]
pub struct Ledger {
    total: u16,
    /// The handle that packets went out on, and how many of them are outstanding.
    held: Option<(Handle, u16)>,
}

impl Model for Ledger {
    ghost use Rattle.std.specs.Prelude.{◌≤◌};
    ghost use Rattle.acl_credits.specs.Ledgers.{Account, packets_of};

    ghost Value = { Account };

    ghost view = { λ ledger. record { total = ledger.total; held = ledger.held } };

    ghost invariant = { λ ledger. packets_of ledger.held ≤ ledger.total };
}

impl Ledger {
    /// The ledger of a controller that takes `total` packets and holds none.
    pub fn new(total: u16) -> Ledger
        ensures account { result ≡ record { total = total; held = None } }
        ensures history { SaysOutstanding [] result }
    {
        Ledger { total, held: None }
    }

    /// Whether the controller takes one packet more.
    pub fn may_send(&self) -> bool
        ensures room { IsTrue result ↔ (packets_of self.now.held < self.now.total) }
        ensures within { packets_of self.now.held ≤ self.now.total }
    {
        match self.held {
            Some((_, packets)) => packets < self.total,
            None => self.total > 0,
        }
    }

    /// Notes that a packet went out on `handle`.
    pub fn sent(&mut self, handle: Handle)
        requires room { packets_of self.old.held < self.old.total }
        requires alone { (other : ℕ) → 0 < outstanding_on self.old other → other ≡ handle }
        ensures account { self.new ≡ record self.old { held = Some (handle, outstanding_on self.old handle + 1) } }
        ensures within { packets_of self.new.held ≤ self.new.total }
        ensures history { (past : List BufferEvent) → SaysOutstanding past self.old → SaysOutstanding (past ++ Sent handle ∷ []) self.new }
    {
        let packets = self.outstanding(handle);
        self.held = Some((handle, packets + 1));
    }

    /// Notes that the controller gave `n` packets of `handle` back. `TooMany` where fewer are
    /// outstanding on it: then nothing is given back.
    pub fn completed(&mut self, handle: Handle, n: u16) -> Result<(), LedgerRefusal>
        ensures refused { (result ≡ Err LedgerRefusal.TooMany) ↔ (outstanding_on self.old handle < n) }
        ensures account { OnOk result (self.new ≡ record self.old { held = less n self.old.held }) }
        ensures unchanged { OnErr result (self.new ≡ self.old) }
        ensures history { (past : List BufferEvent) → SaysOutstanding past self.old → SaysOutstanding (past ++ Completed handle n ∷ []) self.new }
    {
        if n > self.outstanding(handle) {
            return Err(LedgerRefusal::TooMany);
        }
        if let Some((holder, packets)) = self.held {
            self.held = Some((holder, packets - n));
        }
        Ok(())
    }

    /// Notes that the link of `handle` ended: all that was outstanding on it is given back.
    pub fn closed(&mut self, handle: Handle)
        ensures account { self.new ≡ record self.old { held = without handle self.old.held } }
        ensures history { (past : List BufferEvent) → SaysOutstanding past self.old → SaysOutstanding (past ++ Closed handle ∷ []) self.new }
    {
        if let Some((holder, _)) = self.held
            && holder == handle
        {
            self.held = None;
        }
    }

    /// The packets outstanding on `handle`.
    pub fn outstanding(&self, handle: Handle) -> u16
        ensures { result ≡ outstanding_on self.now handle }
    {
        match self.held {
            Some((holder, packets)) if holder == handle => packets,
            _ => 0,
        }
    }
}
