//! Words of a script, turned where all is at rest.

ghost use Rattle.std.specs.Prelude.{◌≡◌, ◌+◌, ◌<◌, ◌^◌, ◌∷◌, [], ◌⊎◌, true, List, OnErr, OnOk};
ghost use Rattle.bt_base.specs.Streams.{gained, GainedFront};
ghost use Rattle.push_terms.specs.Words.{IsWord};
ghost use Rattle.capture.specs.Entries.{Acted, entry_octets};
ghost use Rattle.radio_model.specs.Owed.{IsMet};
ghost use Rattle.radio_model.specs.Radio.{found, after_deed, is_quiet};
ghost use Rattle.push_terms.specs.declared.word.Side.TheVariants as sides;
ghost use Rattle.room_laws.specs.world_model.specs.Worlds.{fired, IsAtRest};
ghost use Rattle.radio_world.specs.Hosts.{answering, Reacts};
ghost use Rattle.radio_world.specs.Leaving.{in_radio};
ghost use Rattle.radio_world.specs.Scenes.{moment, world_at};
ghost use Rattle.radio_world.specs.Turning.{can_be_done, fires, cancels, done_by, is_checked};
ghost use Rattle.room_laws.specs.Rooms.{OwesNoneBack};
ghost use Rattle.radio_world.specs.Causes.{Blames};
ghost use Rattle.radio_world.specs.Shortages.{Lacks, LacksByTrace};
ghost use Rattle.radio_world.specs.Calls.{AdvancesAt, BrokenAt, both, ports_of};

use crate::fault::WorldFault;
use crate::host::{Client, Host};
use crate::medium::Medium;
use crate::recording::record;
use crate::scene::Scene;
use bt_base::{NoMemory, Sink};
use capture::Entry;
use push_terms::{Side, Way, Word};
use radio_air::Deed;

/// The timer of a host fires, if it is armed.
fn fire<P, H: Host<P>>(host: &mut H, port: &mut P) -> Result<(), NoMemory>
    requires sound { H.is_sound host.old port.old }
    ensures reacts { OnOk result (Reacts H.machine H.side H.answers (λ used. fired H.machine used) (H.station host.old port.old) (H.station host.new port.new) port.old port.new) }
    ensures held { OnOk result (H.held host.new ≡ H.held host.old) }
    ensures sound { OnOk result (H.is_sound host.new port.new) }
    ensures lacked { OnErr result (H.lacked port.old port.new) }
{
    if !host.armed() {
        return Ok(());
    }
    host.on_timer(port)?;
    Ok(())
}

/// Whether what a word finds fires the timer of a host, if it is armed.
fn fires(deed: Deed, side: Side) -> bool
    ensures { result ≡ fires side deed }
{
    match deed {
        Deed::Fires(Side::A) => match side {
            Side::A => true,
            Side::B => false,
        },
        Deed::Fires(Side::B) => match side {
            Side::A => false,
            Side::B => true,
        },
        Deed::FiresBoth => true,
        Deed::Nothing | Deed::Meets(..) | Deed::Breaks | Deed::Cancels => false,
    }
}

/// Whether what a word finds cancels the push of host a.
fn cancels(deed: Deed) -> bool
    ensures { result ≡ cancels sides.A deed }
{
    match deed {
        Deed::Cancels => true,
        Deed::Nothing | Deed::Meets(..) | Deed::Fires(_) | Deed::FiresBoth | Deed::Breaks => false,
    }
}

/// Host a does of a word what it has to, beside the air. It needs that this can be done.
fn client_acts<P, A: Client<P>>(deed: Deed, a: &mut A, shelf: &mut P) -> Result<(), NoMemory>
    requires cancelled { cancels sides.A deed ≡ true → (rest : List A.Host.Answer) → A.Host.machine.may_cancel ((A.Host.station a.old shelf.old).upper rest) ≡ true }
    requires sound { A.Host.is_sound a.old shelf.old }
    ensures reacts { OnOk result (Reacts A.Host.machine A.Host.side A.Host.answers (done_by A.Host.machine sides.A deed) (A.Host.station a.old shelf.old) (A.Host.station a.new shelf.new) shelf.old shelf.new) }
    ensures held { OnOk result (A.Host.held a.new ≡ A.Host.held a.old) }
    ensures sound { OnOk result (A.Host.is_sound a.new shelf.new) }
    ensures lacked { OnErr result (A.Host.lacked shelf.old shelf.new) }
{
    if fires(deed, Side::A) {
        fire(a, shelf)?;
        return Ok(());
    }
    if !cancels(deed) {
        return Ok(());
    }
    a.cancel(shelf)?;
    Ok(())
}

/// Host b does of a word what it has to, beside the air.
fn server_acts<Q, B: Host<Q>>(deed: Deed, b: &mut B, inbox: &mut Q) -> Result<(), NoMemory>
    requires sound { B.is_sound b.old inbox.old }
    ensures reacts { OnOk result (Reacts B.machine B.side B.answers (done_by B.machine sides.B deed) (B.station b.old inbox.old) (B.station b.new inbox.new) inbox.old inbox.new) }
    ensures held { OnOk result (B.held b.new ≡ B.held b.old) }
    ensures sound { OnOk result (B.is_sound b.new inbox.new) }
    ensures lacked { OnErr result (B.lacked inbox.old inbox.new) }
{
    if !fires(deed, Side::B) {
        return Ok(());
    }
    fire(b, inbox)?;
    Ok(())
}

impl Medium {
    /// A word acts in the air.
    ///
    /// It needs that nothing is on its way to either host.
    fn act(&mut self, word: Word, checked: bool)
        requires { is_quiet self.old.radio ≡ true }
        ensures { self.new ≡ in_radio (after_deed checked (found word self.old.radio) self.old.radio) self.old }
    {
        self.radio.act(word, checked);
    }
}

impl Scene {
    /// Whether what a word finds can be done.
    fn can_be_done<P, A: Client<P>, Q, B: Host<Q>>(&self, deed: Deed, a: &A, b: &B) -> bool
        ensures { (shelf : P) (inbox : Q) (rest_a : List A.Host.Answer) (rest_b : List B.Answer) → result ≡ can_be_done A.Host.machine B.machine deed self.now.pushes ((A.Host.station a.now shelf).upper rest_a) ((B.station b.now inbox).upper rest_b) }
    {
        match deed {
            Deed::Nothing => false,
            Deed::Meets(..) | Deed::Breaks => true,
            Deed::Fires(Side::A) => a.armed(),
            Deed::Fires(Side::B) => b.armed(),
            Deed::FiresBoth => a.armed() | b.armed(),
            Deed::Cancels => self.pushes.going() && a.may_cancel(),
        }
    }

    /// What a word finds.
    ///
    /// It needs that nothing is on its way to either host.
    fn found(&self, word: Word) -> Deed
        requires { is_quiet self.now.medium.radio ≡ true }
        ensures deed { result ≡ found word self.now.medium.radio }
        ensures met { IsMet result self.now.medium.radio }
    {
        self.medium.radio.found(word)
    }

    /// Whether a word finds something that can be done.
    ///
    /// It needs that nothing is on its way to either host.
    pub(crate) fn finds<P, A: Client<P>, Q, B: Host<Q>>(&self, word: Word, a: &A, b: &B) -> bool
        requires { is_quiet self.now.medium.radio ≡ true }
        ensures { (shelf : P) (inbox : Q) (rest_a : List A.Host.Answer) (rest_b : List B.Answer) → result ≡ can_be_done A.Host.machine B.machine (found word self.now.medium.radio) self.now.pushes ((A.Host.station a.now shelf).upper rest_a) ((B.station b.now inbox).upper rest_b) }
    {
        let deed = self.found(word);
        self.can_be_done(deed, a, b)
    }

    /// Whether the receiver of the frame that meets its fate has a check word for its channel.
    fn is_checked<P, A: Host<P>, Q, B: Host<Q>>(&self, deed: Deed, a: &A, b: &B) -> bool
        requires { is_quiet self.now.medium.radio ≡ true }
        ensures { (shelf : P) (inbox : Q) (rest_a : List A.Answer) (rest_b : List B.Answer) → result ≡ is_checked A.machine B.machine deed self.now.medium.radio ((A.station a.now shelf).upper rest_a) ((B.station b.now inbox).upper rest_b) }
    {
        let Deed::Meets(way, _) = deed else {
            return false;
        };
        let Some(channel) = self.medium.radio.channel(way) else {
            return false;
        };
        match way {
            Way::Ab => b.has_fcs(channel),
            Way::Ba => a.has_fcs(channel),
        }
    }

    /// A word stands in the trace, and acts in the air.
    ///
    /// It needs that nothing is on its way to either host.
    fn act<T: Sink>(&mut self, word: Word, checked: bool, trace: &mut T) -> Result<(), WorldFault>
        requires quiet { is_quiet self.old.medium.radio ≡ true }
        requires word { IsWord word }
        requires few { self.old.turned + 1 < 2 ^ 64 }
        ensures scene { OnOk result (self.new ≡ record self.old { medium = in_radio (after_deed checked (found word self.old.medium.radio) self.old.medium.radio) self.old.medium; turned = self.old.turned + 1 }) }
        ensures written { OnOk result (T.content trace.new ≡ gained (T.content trace.old) (entry_octets (Acted (self.old.turned + 1) word))) }
        ensures blames { Blames (T.faults trace.old) (T.faults trace.new) result }
        ensures lacks { LacksByTrace (T.shortages trace.old) (T.shortages trace.new) result }
        ensures front { GainedFront (T.content trace.old) (T.content trace.new) (entry_octets (Acted (self.old.turned + 1) word)) }
    {
        let ordinal = self.turned + 1;
        record(&Entry::Acted { ordinal, word }, trace)?;
        self.medium.act(word, checked);
        self.turned = ordinal;
        Ok(())
    }

    /// A word acts on the air, and then on both hosts. It stands in the trace first.
    ///
    /// It needs that all is at rest, and that the word finds something that can be done.
    pub(crate) fn do_word<P, A: Client<P>, Q, B: Host<Q>, T: Sink>(
        &mut self,
        word: Word,
        a: &mut A,
        shelf: &mut P,
        b: &mut B,
        inbox: &mut Q,
        trace: &mut T,
    ) -> Result<(), WorldFault>
        requires rest { (rest_a : List A.Host.Answer) (rest_b : List B.Answer) → IsAtRest A.Host.machine B.machine (world_at (moment self.old (answering rest_a (A.Host.station a.old shelf.old)) (answering rest_b (B.station b.old inbox.old)))) }
        requires quiet { is_quiet self.old.medium.radio ≡ true }
        requires finds { (rest_a : List A.Host.Answer) (rest_b : List B.Answer) → can_be_done A.Host.machine B.machine (found word self.old.medium.radio) self.old.pushes ((A.Host.station a.old shelf.old).upper rest_a) ((B.station b.old inbox.old).upper rest_b) ≡ true }
        requires word { IsWord word }
        requires few { self.old.turned + 1 < 2 ^ 64 }
        requires sides { (A.Host.side ≡ sides.A) × (B.side ≡ sides.B) }
        requires sound { A.Host.is_sound a.old shelf.old × B.is_sound b.old inbox.old }
        ensures advances { OnOk result (AdvancesAt A.Host B.Host (word ∷ []) (both a.old b.old self.old) (ports_of T.Sink shelf.old inbox.old trace.old) (both a.new b.new self.new) (ports_of T.Sink shelf.new inbox.new trace.new)) }
        ensures held { OnOk result ((A.Host.held a.new ≡ A.Host.held a.old) × (B.held b.new ≡ B.held b.old)) }
        ensures sound { OnOk result (A.Host.is_sound a.new shelf.new × B.is_sound b.new inbox.new) }
        ensures blames { Blames (T.faults trace.old) (T.faults trace.new) result }
        ensures none_back { OnOk result (OwesNoneBack self.new.medium.radio) }
        ensures lacks { Lacks (T.shortages trace.old) (T.shortages trace.new) (A.Host.lacked shelf.old shelf.new ⊎ B.lacked inbox.old inbox.new) result }
        ensures breaks { OnErr result (BrokenAt A.Host B.Host (word ∷ []) (both a.old b.old self.old) (ports_of T.Sink shelf.old inbox.old trace.old) (ports_of T.Sink shelf.new inbox.new trace.new)) }
    {
        let deed = self.found(word);
        let checked = self.is_checked(deed, a, b);
        self.act(word, checked, trace)?;
        client_acts(deed, a, shelf)?;
        server_acts(deed, b, inbox)?;
        Ok(())
    }
}
