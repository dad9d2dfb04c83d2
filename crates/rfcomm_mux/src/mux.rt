//! One side of a multiplexer.

ghost use Rattle.std.specs.Prelude.{◌≡◌, ◌↔◌, ◌+◌, ◌*◌, ◌≤◌, ◌<◌, ℕ, true, Some, None, length, take, drop, IfOk, IfSome, IfNone, IsTrue};
ghost use Rattle.rfcomm_frames.specs.declared.connection.Role.TheVariants.{Initiator, Responder};
ghost use Rattle.rfcomm_model.specs.Machine.{new_mux, first_credits, first_asks, is_leaving, reset, taken_count, sends, leaves, may_pass, is_ready, closes};

mod hearing;
mod looking;
mod messages;
mod saying;

use crate::answers::Answers;
use crate::pending::Pending;
use crate::purse::Purse;
use bt_base::NoMemory;
pub use hearing::MuxUp;
use rfcomm_frames::{Dlc, Role};
use rfcomm_model::{Asks, Command, MuxReason, Readiness};
use std::alloc::Global;
use std::marker::Model;

/// One side of a multiplexer with one user channel (RFCOMM 1.2): octets that are sent and that come
/// pass through the SDUs of an L2CAP channel.
///
/// `on_sdu` takes each SDU that comes, and `next_sdu` writes those to be sent. A clause sees the value
/// of the machine, and each call as a function of it.
#[derive(Drop)]
pub struct Mux {
    dlci: u8,
    own: u16,
    frame: u16,
    agreed: bool,
    stated: bool,
    control: Dlc,
    user: Dlc,
    asks: Asks,
    ready: Readiness,
    cap: u8,
    account: Purse,
    answers: Answers,
    pending: Pending,
    closed: Option<MuxReason>,
}

impl Model for Mux {
    ghost use Rattle.rfcomm_model.specs.Machine.{Mux as Machine};

    ghost Value = { Machine };

    ghost use Rattle.rfcomm_mux.specs.Whole.{machine_of, IsSound};

    ghost view = { machine_of };

    ghost invariant = { IsSound };
}

/// How many credits PN grants the peer at first: three bits are for them (RFCOMM 1.2, 5.5.3).
fn first_credits(cap: u8) -> u8
    ensures { result ≡ first_credits cap }
{
    if cap <= 7 { cap } else { 7 }
}

/// What a side asks at first.
fn first_asks(role: Role) -> Asks
    ensures { result ≡ first_asks role }
{
    match role {
        Role::Initiator => Asks::Due(Command::OpenControl),
        Role::Responder => Asks::Nothing,
    }
}

impl Mux {
    /// The initiator's side, which opens the user channel with this server channel number. Its own
    /// frame size is `frame`, and its peer is to have `credits` credits at most. It reserves all
    /// that it ever needs; `NoMemory` is answered for want of memory alone.
    pub fn client(alloc: Global, channel: u8, frame: u16, credits: u8) -> Result<Mux, NoMemory>
        requires channel { (1 ≤ channel) × (channel ≤ 30) }
        requires frame { (23 ≤ frame) × (frame ≤ 32761) }
        requires credits { (1 ≤ credits) × (credits ≤ 40) }
        ensures { IfOk result (λ mux. mux ≡ new_mux Initiator (2 * channel) frame frame credits) }
    {
        let mux = Mux::new(alloc, Role::Initiator, channel, frame, credits)?;
        Ok(mux)
    }

    /// The responder's side, which serves this server channel number. The rest is as for `client`.
    pub fn server(alloc: Global, channel: u8, frame: u16, credits: u8) -> Result<Mux, NoMemory>
        requires channel { (1 ≤ channel) × (channel ≤ 30) }
        requires frame { (23 ≤ frame) × (frame ≤ 32761) }
        requires credits { (1 ≤ credits) × (credits ≤ 40) }
        ensures { IfOk result (λ mux. mux ≡ new_mux Responder (2 * channel) frame frame credits) }
    {
        let mux = Mux::new(alloc, Role::Responder, channel, frame, credits)?;
        Ok(mux)
    }

    fn new(alloc: Global, role: Role, channel: u8, frame: u16, credits: u8) -> Result<Mux, NoMemory>
        requires channel { (1 ≤ channel) × (channel ≤ 30) }
        requires frame { (23 ≤ frame) × (frame ≤ 32761) }
        requires credits { (1 ≤ credits) × (credits ≤ 40) }
        ensures { IfOk result (λ mux. mux ≡ new_mux role (2 * channel) frame frame credits) }
    {
        let pending = Pending::new(alloc, frame)?;
        Ok(Mux {
            dlci: 2 * channel,
            own: frame,
            frame,
            agreed: false,
            stated: false,
            control: Dlc::Idle,
            user: Dlc::Idle,
            asks: first_asks(role),
            ready: Readiness::Neither,
            cap: credits,
            account: Purse::new(credits, first_credits(credits)),
            answers: Answers::new(role),
            pending,
            closed: None,
        })
    }

    /// Makes the multiplexer as it was made, on its side and channel, with this own frame size. It
    /// takes no memory.
    pub fn reset(&mut self, frame: u16)
        requires least { 23 ≤ frame }
        requires most { frame ≤ self.old.largest }
        ensures { self.new ≡ reset frame self.old }
    {
        self.own = frame;
        self.frame = frame;
        self.agreed = false;
        self.stated = false;
        self.control = Dlc::Idle;
        self.user = Dlc::Idle;
        self.asks = first_asks(self.answers.role());
        self.ready = Readiness::Neither;
        self.account = Purse::new(self.cap, first_credits(self.cap));
        self.answers.clear();
        self.pending.clear();
        self.closed = None;
    }

    /// Whether the user channel is open, and the multiplexer not closed: `send` may be called.
    pub fn is_open(&self) -> bool
        ensures { result ≡ may_pass self.now }
    {
        self.closed.is_none() && self.user == Dlc::Open && self.control != Dlc::Ended
    }

    /// Whether octets pass: the user channel is open, and both MSC commands were answered.
    pub fn is_ready(&self) -> bool
        ensures { result ≡ is_ready self.now }
    {
        self.ready == Readiness::Both && self.is_open()
    }

    /// The largest frame size that `reset` takes.
    pub fn largest(&self) -> u16
        ensures { result ≡ self.now.largest }
    {
        self.pending.largest()
    }

    /// Why the multiplexer was closed, if it was.
    pub fn closed(&self) -> Option<MuxReason>
        ensures { result ≡ self.now.closed }
    {
        self.closed
    }

    /// Takes octets for the next data frame, and answers how many it took: none where a data frame
    /// still waits or no credit is held, else the lesser of their length and the agreed frame size.
    pub fn send(&mut self, octets: &[u8]) -> usize
        requires { may_pass self.old ≡ true }
        ensures count { result ≡ taken_count (length octets.now) self.old }
        ensures machine { self.new ≡ sends octets.now self.old }
    {
        if !self.pending.is_empty() || !self.account.may_send() {
            return 0;
        }
        let most = usize::from(self.frame);
        let count = if octets.len() <= most {
            octets.len()
        } else {
            most
        };
        self.pending.put(&octets[..count]);
        count
    }

    /// Closes the user channel and then the multiplexer: DISC goes out on the one in any state, and
    /// on the control channel once the first was answered. A multiplexer that was closed, or closes
    /// already, stays as it is.
    pub fn close(&mut self)
        ensures { self.new ≡ leaves self.old }
    {
        if self.closed.is_none() && !is_leaving(self.asks) {
            self.asks = Asks::Due(Command::LeaveUser);
        }
    }

    /// Is closed for good.
    fn shut(&mut self, reason: MuxReason)
        ensures { self.new ≡ closes reason self.old }
    {
        self.asks = Asks::Nothing;
        self.pending.clear();
        self.closed = Some(reason);
    }
}

/// Whether an own DISC waits to be sent or to be answered.
fn is_leaving(asks: Asks) -> bool
    ensures { result ≡ is_leaving asks }
{
    match asks {
        Asks::Nothing => false,
        Asks::Due(command) | Asks::Awaited(command) => {
            matches!(command, Command::LeaveUser | Command::LeaveControl)
        }
    }
}
