//! What goes on between the two hosts.

ghost use Rattle.std.specs.Prelude.{◌≡◌, ◌+◌, ◌<◌, ◌&&◌, ◌∷◌, [], true, false, List, None, Ok, IfOk, OnOk, OnErr};
ghost use Rattle.bt_base.specs.Streams.{gained, GainedFront};
ghost use Rattle.push_terms.specs.declared.word.Side.TheVariants as sides;
ghost use Rattle.capture.specs.Entries.{Ended, IsEntry, entry_octets};
ghost use Rattle.radio_model.specs.Radio.{is_apart, is_quiet};
ghost use Rattle.room_laws.specs.world_model.specs.Pushes.{next_name, one_ended};
ghost use Rattle.radio_world.specs.Counting.{one_if, GoesBy};
ghost use Rattle.radio_world.specs.Halves.{IsStillIn, MayAllBeHeard, StaysPut};
ghost use Rattle.radio_world.specs.Scenes.{may_end, Begins, Ends};
ghost use Rattle.room_laws.specs.rest_laws.specs.Premises.{AreOrderly};
ghost use Rattle.room_laws.specs.Rooms.{OwesNoneBack};
ghost use Rattle.radio_world.specs.Causes.{Blames};
ghost use Rattle.radio_world.specs.Shortages.{Lacks, LacksByTrace, Shortage};
ghost use Rattle.radio_world.specs.Breaking.{BeginBroken, EndBroken, GoesBroken};
ghost use Rattle.radio_world.specs.Calls.{AdvancesAt, AdvancesByAt, AreReached, AreSettled, BrokenAt, LacksAt, both, ports_of};

use crate::fault::WorldFault;
use crate::host::{Client, Host};
use crate::medium::Medium;
use crate::ordering::Pushes;
use crate::recording::record;
use bt_base::Sink;
use capture::Entry;
use push_terms::{Outcome, Side};
use std::marker::Model;

/// What lies between the two hosts, and the pushes of a scenario. A clause sees both, and how many
/// words were turned.
#[derive(Drop)]
pub(crate) struct Scene {
    pub(crate) medium: Medium,
    pub(crate) pushes: Pushes,
    pub(crate) turned: u64,
}

impl Model for Scene {
    ghost use Rattle.radio_world.specs.Scenes.{Scene as Seen};

    ghost Value = { Seen };

    ghost view = { λ scene. record { medium = scene.medium; pushes = scene.pushes; turned = scene.turned } };
}

impl Scene {
    /// Begins the next push, where host a is idle and an object is left. False where nothing begins.
    fn begin<P, A: Client<P>, T: Sink>(
        &mut self,
        a: &mut A,
        shelf: &mut P,
        trace: &mut T,
    ) -> Result<bool, WorldFault>
        requires sound { A.Host.is_sound a.old shelf.old }
        ensures begins { result ≡ Ok true → Begins A.Host.machine A.Host.side A.Host.answers self.old self.new (A.Host.station a.old shelf.old) (A.Host.station a.new shelf.new) shelf.old shelf.new (T.content trace.old) (T.content trace.new) }
        ensures none { result ≡ Ok false → (self.new ≡ self.old) × (a.new ≡ a.old) × (shelf.new ≡ shelf.old) × (T.content trace.new ≡ T.content trace.old) × ((rest : List A.Host.Answer) → A.Host.machine.is_idle ((A.Host.station a.old shelf.old).upper rest) ≡ true → next_name self.old.pushes ≡ None) }
        ensures held { OnOk result (A.Host.held a.new ≡ A.Host.held a.old) }
        ensures sound { OnOk result (A.Host.is_sound a.new shelf.new) }
        ensures medium { OnOk result (self.new.medium ≡ self.old.medium) }
        ensures blames { Blames (T.faults trace.old) (T.faults trace.new) result }
        ensures lacks { Lacks (T.shortages trace.old) (T.shortages trace.new) (A.Host.lacked shelf.old shelf.new) result }
        ensures breaks { OnErr result (BeginBroken A.Host.machine A.Host.lacked self.old (A.Host.station a.old shelf.old) shelf.old shelf.new (T.content trace.old) (T.content trace.new)) }
    {
        if !a.idle() {
            return Ok(false);
        }
        let Some(name) = self.pushes.next() else {
            return Ok(false);
        };
        record(&Entry::Begun(self.pushes.begun() + 1), trace)?;
        a.push(name, shelf)?;
        self.pushes.begin();
        Ok(true)
    }

    /// Ends the push that goes on, with what came of it. It needs one.
    pub(crate) fn end<T: Sink>(&mut self, outcome: Outcome, trace: &mut T) -> Result<(), WorldFault>
        requires { self.old.pushes.going ≡ true }
        ensures scene { OnOk result (self.new ≡ record self.old { pushes = one_ended outcome self.old.pushes }) }
        ensures written { OnOk result (T.content trace.new ≡ gained (T.content trace.old) (entry_octets (Ended self.old.pushes.begun outcome))) }
        ensures entry { IsEntry (Ended self.old.pushes.begun outcome) }
        ensures blames { Blames (T.faults trace.old) (T.faults trace.new) result }
        ensures lacks { LacksByTrace (T.shortages trace.old) (T.shortages trace.new) result }
        ensures front { GainedFront (T.content trace.old) (T.content trace.new) (entry_octets (Ended self.old.pushes.begun outcome)) }
    {
        record(&Entry::Ended(self.pushes.begun(), outcome), trace)?;
        self.pushes.end(outcome);
        Ok(())
    }

    /// Whether a push goes on, without a link, and nothing is on its way to a host.
    fn may_end(&self) -> bool
        ensures { result ≡ may_end self.now }
    {
        self.pushes.going() && self.medium.radio.is_apart() && self.medium.radio.is_quiet()
    }

    /// Ends the push that goes on, where host a is idle, something came of it, there is no link, and
    /// nothing is on its way to a host. False where nothing ends.
    fn end_idle<P, A: Client<P>, T: Sink>(
        &mut self,
        a: &A,
        trace: &mut T,
    ) -> Result<bool, WorldFault>
        ensures ends { result ≡ Ok true → (shelf : P) → Ends A.Host.machine self.old self.new (A.Host.station a.now shelf) (T.content trace.old) (T.content trace.new) }
        ensures none { result ≡ Ok false → (self.new ≡ self.old) × (T.content trace.new ≡ T.content trace.old) }
        ensures early { result ≡ Ok false → may_end self.old ≡ true → (shelf : P) (rest : List A.Host.Answer) → A.Host.machine.is_idle ((A.Host.station a.now shelf).upper rest) ≡ true → A.Host.machine.outcome ((A.Host.station a.now shelf).upper rest) ≡ None }
        ensures medium { OnOk result (self.new.medium ≡ self.old.medium) }
        ensures blames { Blames (T.faults trace.old) (T.faults trace.new) result }
        ensures lacks { LacksByTrace (T.shortages trace.old) (T.shortages trace.new) result }
        ensures breaks { OnErr result ((shelf : P) → EndBroken A.Host.machine self.old (A.Host.station a.now shelf) (T.content trace.old) (T.content trace.new)) }
    {
        if !self.may_end() || !a.idle() {
            return Ok(false);
        }
        let Some(outcome) = a.outcome() else {
            return Ok(false);
        };
        self.end(outcome, trace)?;
        Ok(true)
    }

    /// All moves between a host and its controller. False where nothing moved.
    fn exchange<P, H: Host<P>, T: Sink>(
        &mut self,
        side: Side,
        host: &mut H,
        port: &mut P,
        trace: &mut T,
    ) -> Result<bool, WorldFault>
        requires side { H.side ≡ side }
        requires none_held { H.held host.old ≡ [] }
        requires heard { MayAllBeHeard H.machine side self.old.medium (H.station host.old port.old) }
        requires sound { H.is_sound host.old port.old }
        ensures goes { IfOk result (λ moved. GoesBy (one_if moved) H.machine side H.answers self.old.medium self.new.medium (H.station host.old port.old) (H.station host.new port.new) port.old port.new (T.content trace.old) (T.content trace.new)) }
        ensures scene { OnOk result ((self.new.pushes ≡ self.old.pushes) × (self.new.turned ≡ self.old.turned)) }
        ensures still { OnOk result (IsStillIn side self.new.medium) }
        ensures none { result ≡ Ok false → StaysPut side self.old.medium self.new.medium (H.station host.old port.old) (H.station host.new port.new) }
        ensures none_held { OnOk result (H.held host.new ≡ []) }
        ensures sound { OnOk result (H.is_sound host.new port.new) }
        ensures blames { Blames (T.faults trace.old) (T.faults trace.new) result }
        ensures lacks { Lacks (T.shortages trace.old) (T.shortages trace.new) (Shortage H.lacked side (H.station host.old port.old).out self.old.medium port.old port.new (T.content trace.old) (T.content trace.new)) result }
        ensures breaks { OnErr result (GoesBroken H.machine side H.answers H.lacked H.station self.old.medium (H.station host.old port.old) port.old port.new (T.content trace.old) (T.content trace.new)) }
    {
        let moved = self.medium.exchange(side, host, port, trace)?;
        Ok(moved)
    }

    /// A round: the next push begins, all moves, and a push may end. False where nothing happened.
    /// It needs what a run of the pure world led to, orderly machines, and that no packet is owed back.
    fn round<P, A: Client<P>, Q, B: Host<Q>, T: Sink>(
        &mut self,
        a: &mut A,
        shelf: &mut P,
        b: &mut B,
        inbox: &mut Q,
        trace: &mut T,
    ) -> Result<bool, WorldFault>
        requires orderly { AreOrderly A.Host.machine B.machine }
        requires reached { AreReached A.Host B.Host (both a.old b.old self.old) shelf.old inbox.old }
        requires none_back { OwesNoneBack self.old.medium.radio }
        requires sides { (A.Host.side ≡ sides.A) × (B.side ≡ sides.B) }
        requires none_held { (A.Host.held a.old ≡ []) × (B.held b.old ≡ []) }
        requires sound { A.Host.is_sound a.old shelf.old × B.is_sound b.old inbox.old }
        ensures advances { IfOk result (λ moved. AdvancesByAt (one_if moved) A.Host B.Host [] (both a.old b.old self.old) (ports_of T.Sink shelf.old inbox.old trace.old) (both a.new b.new self.new) (ports_of T.Sink shelf.new inbox.new trace.new)) }
        ensures settled { result ≡ Ok false → AreSettled A.Host B.Host (both a.new b.new self.new) shelf.new inbox.new }
        ensures none_held { OnOk result ((A.Host.held a.new ≡ []) × (B.held b.new ≡ [])) }
        ensures sound { OnOk result (A.Host.is_sound a.new shelf.new × B.is_sound b.new inbox.new) }
        ensures blames { Blames (T.faults trace.old) (T.faults trace.new) result }
        ensures none_back { OnOk result (OwesNoneBack self.new.medium.radio) }
        ensures lacks { LacksAt A.Host B.Host [] (both a.old b.old self.old) (ports_of T.Sink shelf.old inbox.old trace.old) (ports_of T.Sink shelf.new inbox.new trace.new) result }
        ensures breaks { OnErr result (BrokenAt A.Host B.Host [] (both a.old b.old self.old) (ports_of T.Sink shelf.old inbox.old trace.old) (ports_of T.Sink shelf.new inbox.new trace.new)) }
    {
        let began = self.begin(a, shelf, trace)?;
        let moved_a = self.exchange(Side::A, a, shelf, trace)?;
        let moved_b = self.exchange(Side::B, b, inbox, trace)?;
        let ended = self.end_idle(a, trace)?;
        Ok(began | moved_a | moved_b | ended)
    }

    /// Rounds, until in one nothing happens: then all is settled. It comes to that, since each round before lowers what
    /// is left to happen. It needs what `round` does.
    pub(crate) fn settle<P, A: Client<P>, Q, B: Host<Q>, T: Sink>(
        &mut self,
        a: &mut A,
        shelf: &mut P,
        b: &mut B,
        inbox: &mut Q,
        trace: &mut T,
    ) -> Result<(), WorldFault>
        requires orderly { AreOrderly A.Host.machine B.machine }
        requires reached { AreReached A.Host B.Host (both a.old b.old self.old) shelf.old inbox.old }
        requires none_back { OwesNoneBack self.old.medium.radio }
        requires sides { (A.Host.side ≡ sides.A) × (B.side ≡ sides.B) }
        requires none_held { (A.Host.held a.old ≡ []) × (B.held b.old ≡ []) }
        requires sound { A.Host.is_sound a.old shelf.old × B.is_sound b.old inbox.old }
        ensures advances { OnOk result (AdvancesAt A.Host B.Host [] (both a.old b.old self.old) (ports_of T.Sink shelf.old inbox.old trace.old) (both a.new b.new self.new) (ports_of T.Sink shelf.new inbox.new trace.new)) }
        ensures settled { OnOk result (AreSettled A.Host B.Host (both a.new b.new self.new) shelf.new inbox.new) }
        ensures none_held { OnOk result ((A.Host.held a.new ≡ []) × (B.held b.new ≡ [])) }
        ensures sound { OnOk result (A.Host.is_sound a.new shelf.new × B.is_sound b.new inbox.new) }
        ensures blames { Blames (T.faults trace.old) (T.faults trace.new) result }
        ensures none_back { OnOk result (OwesNoneBack self.new.medium.radio) }
        ensures lacks { LacksAt A.Host B.Host [] (both a.old b.old self.old) (ports_of T.Sink shelf.old inbox.old trace.old) (ports_of T.Sink shelf.new inbox.new trace.new) result }
        ensures breaks { OnErr result (BrokenAt A.Host B.Host [] (both a.old b.old self.old) (ports_of T.Sink shelf.old inbox.old trace.old) (ports_of T.Sink shelf.new inbox.new trace.new)) }
    {
        'rounds: while self.round(a, shelf, b, inbox, trace)? {}
        Ok(())
    }
}
