//! A host as the world sees it.

ghost use Rattle.std.specs.Prelude.{◌≡◌, ◌≤◌, [], ℕ, true, List, length, IfOk, OnOk, OnErr};
ghost use Rattle.bt_base.specs.declared.settings.Settings.{Settings as Stated};
ghost use Rattle.push_script.specs.Names.{utf16_length};
ghost use Rattle.push_terms.specs.declared.word.Side.{Side};
ghost use Rattle.room_laws.specs.world_model.specs.Machines.{Upper, TimerFired, Cancelled, Opening};
ghost use Rattle.room_laws.specs.world_model.specs.Stations.{IsStopped, told};
ghost use Rattle.radio_world.specs.Measures.{IsMostOf};
ghost use Rattle.radio_world.specs.Speaking.{SpeaksWithin};
ghost use Rattle.radio_world.specs.Hosts.{Asking, answering, order_octets, AreSent, Reacts, Hears, JoinAnswers};
ghost use Rattle.radio_world.specs.Beginning.{Begins};

use bt_base::{NoMemory, Settings};
use push_terms::Outcome;
use std::alloc::Global;

/// A host as the world sees it: octets in, octets out. `P` is the port that it works on.
///
/// A clause sees the half of it that faces its controller, and above it a pure machine, which is
/// given what the port answers in each reaction. What it is may be told by what its port holds as
/// well. A call that answers `NoMemory`, which comes only where the port found none (`lacked`),
/// leaves the host as it may be: it is called no more.
pub trait Host<P>: Drop {
    /// What its machine is at a moment.
    ghost State: { Type 0 };

    /// What its port answers to one call.
    ghost Answer: { Type 0 };

    /// How many PDUs more it has left to say with one thing that it hears, at most.
    ghost most_more: { ℕ };

    /// The machine.
    ghost machine: { Upper State Answer };

    /// Which of the two hosts it is.
    ghost side: { Side };

    /// What it is, beside its port, for all that this may answer from now on.
    ghost station: { Self → P → Asking State Answer };

    /// The octets that it holds of a packet which is not whole yet.
    ghost held: { Self → List ℕ };

    /// What holds of it and its port between two calls.
    ghost is_sound: { Self → P → Type 0 };

    /// The port gave these answers, one after the other, from one state to another.
    ghost answers: { P → List Answer → P → Type 0 };

    /// The port found no memory, from one state to another: nothing, where a host does not say what
    /// that is.
    ghost lacked: { P → P → Type 0 } = { λ _ _. Unit {0} };

    /// What a new host needs its port to be: nothing, where a host does not say what that is.
    ghost is_unused: { P → Type 0 } = { λ _. Unit {0} };

    /// What a new host of these settings is.
    ghost fresh: { Stated → Self };

    /// A host to which nothing has happened, with these settings. `NoMemory` where what it reserves
    /// cannot be had.
    fn new(alloc: Global, settings: &Settings) -> Result<Self, NoMemory>
        ensures { IfOk result (λ host. host ≡ fresh settings.now) };

    /// The octets for its controller.
    fn out(&self) -> &[u8]
        ensures octets { (port : P) → is_sound self.now port → result.now ≡ order_octets side (station self.now port).out }
        ensures sent { (port : P) → is_sound self.now port → AreSent side (station self.now port).out };

    /// Its controller took all `n` octets of `out`. It goes on by itself: it puts out what it held
    /// back for want of room, and may ask its port for what comes next.
    fn taken(&mut self, n: usize, port: &mut P) -> Result<(), NoMemory>
        requires all { n ≡ length (order_octets side (station self.old port.old).out) }
        requires sound { is_sound self.old port.old }
        ensures goes { OnOk result (Reacts machine side answers (λ used station. station) (record (station self.old port.old) { out = [] }) (station self.new port.new) port.old port.new) }
        ensures held { OnOk result (held self.new ≡ held self.old) }
        ensures sound { OnOk result (is_sound self.new port.new) }
        ensures lacked { OnErr result (lacked port.old port.new) };

    /// Takes octets of its controller. It stays sound where they are of packets that a controller may
    /// let come.
    fn feed(&mut self, octets: &[u8], port: &mut P) -> Result<(), NoMemory>
        requires sound { is_sound self.old port.old }
        ensures hears { OnOk result (Hears machine side answers (held self.old) octets.now (held self.new) (station self.old port.old) (station self.new port.new) port.old port.new (is_sound self.new port.new)) }
        ensures lacked { OnErr result (lacked port.old port.new) };

    /// Whether something waits for its timer.
    fn armed(&self) -> bool
        ensures { (port : P) (rest : List Answer) → result ≡ machine.armed ((station self.now port).upper rest) };

    /// Its timer fires.
    fn on_timer(&mut self, port: &mut P) -> Result<(), NoMemory>
        requires sound { is_sound self.old port.old }
        ensures reacts { OnOk result (Reacts machine side answers (λ used. told machine used TimerFired) (station self.old port.old) (station self.new port.new) port.old port.new) }
        ensures held { OnOk result (held self.new ≡ held self.old) }
        ensures sound { OnOk result (is_sound self.new port.new) }
        ensures lacked { OnErr result (lacked port.old port.new) };

    /// Whether its channel of that number has a check word.
    fn has_fcs(&self, channel: u16) -> bool
        ensures { (port : P) (rest : List Answer) → result ≡ machine.has_check ((station self.now port).upper rest) channel };

    /// A new host did no more than to begin, holds nothing, and is sound.
    ghost begins: { (settings : Stated) (port : P) → is_unused port → Begins machine side (station (fresh settings) port) (held (fresh settings)) (is_sound (fresh settings) port) };

    /// Lists of answers join.
    ghost joins: { JoinAnswers answers };

    /// Memory that is found wanting later was found wanting.
    ghost lacks: { (first mid last : P) (used : List Answer) → answers first used mid → lacked mid last → lacked first last };

    /// It says no more than that, whatever its port answers: so the world comes to rest.
    ghost speaks: { SpeaksWithin machine station most_more };

    /// Where all that it put out was taken, it can do nothing more by itself.
    ghost stops: { (host : Self) (port : P) → is_sound host port → (station host port).out ≡ [] → (rest : List Answer) → IsStopped machine side (answering rest (station host port)) };
}

/// A host that pushes objects, one after the other.
pub trait Client<P>: Host<P> {
    /// Whether no push goes on.
    fn idle(&self) -> bool
        ensures { (port : P) (rest : List Self.Answer) → result ≡ Self.machine.is_idle ((Self.station self.now port).upper rest) };

    /// What came of the last push, once that is fixed.
    fn outcome(&self) -> Option<Outcome>
        ensures { (port : P) (rest : List Self.Answer) → result ≡ Self.machine.outcome ((Self.station self.now port).upper rest) };

    /// Whether the push that goes on can still be cancelled.
    fn may_cancel(&self) -> bool
        ensures { (port : P) (rest : List Self.Answer) → result ≡ Self.machine.may_cancel ((Self.station self.now port).upper rest) };

    /// Begins to push the object of that name. It needs that none is pushed.
    fn push(&mut self, name: &str, port: &mut P) -> Result<(), NoMemory>
        requires idle { (rest : List Self.Answer) → Self.machine.is_idle ((Self.station self.old port.old).upper rest) ≡ true }
        requires name { utf16_length name.now ≤ 100 }
        requires sound { Self.is_sound self.old port.old }
        ensures reacts { OnOk result (Reacts Self.machine Self.side Self.answers (λ used. told Self.machine used (Opening name.now)) (Self.station self.old port.old) (Self.station self.new port.new) port.old port.new) }
        ensures held { OnOk result (Self.held self.new ≡ Self.held self.old) }
        ensures sound { OnOk result (Self.is_sound self.new port.new) }
        ensures lacked { OnErr result (Self.lacked port.old port.new) };

    /// Cancels the push that goes on. It needs that this can still be done.
    fn cancel(&mut self, port: &mut P) -> Result<(), NoMemory>
        requires may { (rest : List Self.Answer) → Self.machine.may_cancel ((Self.station self.old port.old).upper rest) ≡ true }
        requires sound { Self.is_sound self.old port.old }
        ensures reacts { OnOk result (Reacts Self.machine Self.side Self.answers (λ used. told Self.machine used Cancelled) (Self.station self.old port.old) (Self.station self.new port.new) port.old port.new) }
        ensures held { OnOk result (Self.held self.new ≡ Self.held self.old) }
        ensures sound { OnOk result (Self.is_sound self.new port.new) }
        ensures lacked { OnErr result (Self.lacked port.old port.new) };
}

/// A host that notes how far it came with what its channels limit.
pub trait Measured<P>: Host<P> {
    /// The most frames of one enhanced channel that were sent and not acknowledged, so far.
    ghost frames_sent: { Self → ℕ };

    /// The most credits of one RFCOMM channel that were held, so far.
    ghost credits_held: { Self → ℕ };

    /// How many frames of an enhanced channel it had sent, at most, that were not acknowledged.
    fn greatest_window(&self) -> u8
        ensures { result ≡ frames_sent self.now };

    /// How many credits of an RFCOMM channel it held at most.
    fn greatest_credits(&self) -> u16
        ensures { result ≡ credits_held self.now };

    /// Its machine notes them at each hearing and at each saying.
    ghost frames_noted: { IsMostOf Self.Host.machine Self.Host.station frames_sent };

    ghost credits_noted: { IsMostOf Self.Host.machine Self.Host.station credits_held };
}

/// A host that stores objects.
pub trait Keeps {
    /// How many objects were stored so far, and the greatest number where there were more.
    ghost stored: { Self → ℕ };

    /// How many objects it stored. The number stands still at the greatest one.
    fn kept(&self) -> u32
        ensures { result ≡ stored self.now };
}
