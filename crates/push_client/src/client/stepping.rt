//! The steps of a client.

ghost use Rattle.std.specs.Prelude.{◌≡◌, [], false, true, List};
ghost use Rattle.bt_base.specs.declared.settings.Transport.TheVariants as transports;
ghost use Rattle.obex_session.specs.NextPut.{is_waiting};
ghost use Rattle.obex_session.specs.PutPackets.{Reaches};
ghost use Rattle.push_model.specs.Responding.{is_object};
ghost use Rattle.push_model.specs.Steps.{Part, filled, next_ask, says, takes_some, asks_through, steps_direct, steps_muxed, steps_at, tells_end};
ghost use Rattle.push_model.specs.declared.course.Stage.TheVariants.{Object};
ghost use Rattle.push_client.specs.Putting.{Comes};
ghost use Rattle.push_client.specs.Pushing.{gone, said_next, given_at, left, wants_memory};
ghost use Rattle.push_client.specs.Requesting.{ask_of, sent_direct, sent_through, Stays, PutsAlike};

use super::{PushClient, RFCOMM_PSM, SEARCH_PSM, psm_of};
use crate::asking::Ask;
use crate::course::is_object;
use crate::step::Step;
use bt_base::{Shelf, Transport};
use push_model::{Contact, Point, Stage};

impl PushClient {
    /// `advance` where no call failed before, and no step waits to be done.
    pub(super) fn go_on<F: Shelf>(&mut self, shelf: &mut F) -> Step
        requires works { self.old.failed ≡ false }
        ensures comes { Comes (steps_at self.old.stage self.old) (gone self.new result) self.old (F.content shelf.old) (F.faults shelf.old) (F.faults shelf.new) (F.shortages shelf.old) (F.shortages shelf.new) self.new.failed }
        ensures fails { wants_memory result ≡ self.new.failed }
        ensures content { F.content shelf.new ≡ F.content shelf.old }
        ensures absence { Reaches self.old.size self.old.name (F.content shelf.old) → F.absences shelf.new ≡ F.absences shelf.old }
    {
        if !is_object(self.stage()) {
            return self.go();
        }
        match self.transport {
            Transport::L2cap => self.go_direct(shelf),
            Transport::Rfcomm => self.go_muxed(shelf),
        }
    }

    /// The next step where the channel of the object is not open.
    fn go(&mut self) -> Step
        requires { is_object self.old.stage ≡ false }
        ensures steps { (parts : List Part) → steps_at self.old.stage self.old parts ≡ gone self.new result parts }
        ensures failed { self.new.failed ≡ self.old.failed }
        ensures works { wants_memory result ≡ false }
    {
        match self.stage() {
            Stage::Link(Point::Due) => self.give(Step::MakeLink, Stage::Link(Point::Asked)),
            Stage::SearchChannel(Point::Due) => {
                let step = Step::OpenChannel(psm_of(SEARCH_PSM));
                self.give(step, Stage::SearchChannel(Point::Asked))
            }
            Stage::Search => self.search(),
            Stage::SearchEnd(Point::Due) => {
                let step = Step::CloseChannel(psm_of(SEARCH_PSM));
                self.give(step, Stage::SearchEnd(Point::Asked))
            }
            Stage::Features(Point::Due) => {
                self.give(Step::AskFeatures, Stage::Features(Point::Asked))
            }
            Stage::ObjectChannel(Point::Due) => {
                self.give(
                    Step::OpenChannel(self.psm),
                    Stage::ObjectChannel(Point::Asked),
                )
            }
            Stage::ObjectEnd(Point::Due) => {
                self.give(Step::CloseChannel(self.psm), Stage::ObjectEnd(Point::Asked))
            }
            Stage::LinkEnd(Point::Due) => {
                self.give(Step::BreakLink, Stage::LinkEnd(Point::Asked))
            }
            Stage::Over => self.tell_end(),
            _ => Step::Wait,
        }
    }

    /// Gives a step, behind which the push is at that stage.
    fn give(&mut self, step: Step, stage: Stage) -> Step
        ensures step { result ≡ step }
        ensures client { self.new ≡ given_at stage self.old }
    {
        self.reception.dialog.course.stage = stage;
        self.given = true;
        step
    }

    /// Tells the end of a push that is over.
    fn tell_end(&mut self) -> Step
        ensures failed { self.new.failed ≡ self.old.failed }
        ensures works { wants_memory result ≡ false }
        ensures steps { (parts : List Part) → tells_end self.old.cause self.old parts ≡ gone self.new result parts }
    {
        let Some(outcome) = self.reception.dialog.course.cause else {
            return Step::Wait;
        };
        self.reception.dialog.course.stage = Stage::Rest;
        Step::Ended(outcome)
    }

    /// The next step on the channel of the object, over L2CAP.
    fn go_direct<F: Shelf>(&mut self, shelf: &mut F) -> Step
        requires works { self.old.failed ≡ false }
        requires stage { self.old.stage ≡ Object }
        requires transport { self.old.transport ≡ transports.L2cap }
        ensures comes { Comes (steps_direct self.old) (gone self.new result) self.old (F.content shelf.old) (F.faults shelf.old) (F.faults shelf.new) (F.shortages shelf.old) (F.shortages shelf.new) self.new.failed }
        ensures fails { wants_memory result ≡ self.new.failed }
        ensures content { F.content shelf.new ≡ F.content shelf.old }
        ensures absence { Reaches self.old.size self.old.name (F.content shelf.old) → F.absences shelf.new ≡ F.absences shelf.old }
    {
        if !self.reception.dialog.may_ask() {
            return Step::Wait;
        }
        self.outgoing.clear();
        match self.reception.dialog.next_ask() {
            Ask::Close => self.give(Step::CloseChannel(self.psm), Stage::ObjectEnd(Point::Asked)),
            Ask::Nothing => Step::Wait,
            ask => self.send_direct(ask, shelf),
        }
    }

    /// A request goes out as one SDU.
    fn send_direct<F: Shelf>(&mut self, ask: Ask, shelf: &mut F) -> Step
        requires works { self.old.failed ≡ false }
        requires asks { ask_of ask ≡ next_ask self.old }
        requires free { is_waiting self.old.session.awaited ≡ false }
        requires none { self.old.rest ≡ [] }
        requires stage { self.old.stage ≡ Object }
        requires transport { self.old.transport ≡ transports.L2cap }
        ensures comes { Comes (sent_direct (ask_of ask) self.old) (gone self.new result) self.old (F.content shelf.old) (F.faults shelf.old) (F.faults shelf.new) (F.shortages shelf.old) (F.shortages shelf.new) self.new.failed }
        ensures fails { wants_memory result ≡ self.new.failed }
        ensures content { F.content shelf.new ≡ F.content shelf.old }
        ensures absence { Reaches self.old.size self.old.name (F.content shelf.old) → F.absences shelf.new ≡ F.absences shelf.old }
    {
        let Ok(()) = self.request(ask, shelf) else {
            self.failed = true;
            return Step::NoMemory;
        };
        self.given = true;
        Step::SendSdu(self.psm)
    }

    /// The next step on the channel of the object, over RFCOMM: a frame of the multiplexer goes first.
    fn go_muxed<F: Shelf>(&mut self, shelf: &mut F) -> Step
        requires works { self.old.failed ≡ false }
        requires stage { self.old.stage ≡ Object }
        requires transport { self.old.transport ≡ transports.Rfcomm }
        ensures comes { Comes (steps_muxed self.old) (gone self.new result) self.old (F.content shelf.old) (F.faults shelf.old) (F.faults shelf.new) (F.shortages shelf.old) (F.shortages shelf.new) self.new.failed }
        ensures fails { wants_memory result ≡ self.new.failed }
        ensures content { F.content shelf.new ≡ F.content shelf.old }
        ensures absence { Reaches self.old.size self.old.name (F.content shelf.old) → F.absences shelf.new ≡ F.absences shelf.old }
    {
        self.say();
        if self.frame.is_there() {
            return self.send_frame();
        }
        if !self.reception.dialog.may_ask() {
            return Step::Wait;
        }
        match self.reception.dialog.next_ask() {
            Ask::Close => self.close_mux(),
            Ask::Nothing => Step::Wait,
            ask => self.ask_through(ask, shelf),
        }
    }

    /// The multiplexer is closed.
    fn close_mux(&mut self) -> Step
        requires stage { self.old.stage ≡ Object }
        requires transport { self.old.transport ≡ transports.Rfcomm }
        ensures steps { (parts : List Part) → says (left self.old) parts ≡ gone self.new result parts }
        ensures failed { self.new.failed ≡ self.old.failed }
        ensures works { wants_memory result ≡ false }
    {
        self.mux.close();
        self.reception.dialog.contact = Contact::Closing;
        self.say_frame()
    }

    /// A request is made where the multiplexer takes at least its first octet.
    fn ask_through<F: Shelf>(&mut self, ask: Ask, shelf: &mut F) -> Step
        requires works { self.old.failed ≡ false }
        requires asks { ask_of ask ≡ next_ask self.old }
        requires free { is_waiting self.old.session.awaited ≡ false }
        requires stage { self.old.stage ≡ Object }
        requires transport { self.old.transport ≡ transports.Rfcomm }
        ensures comes { Comes (asks_through (ask_of ask) self.old) (gone self.new result) self.old (F.content shelf.old) (F.faults shelf.old) (F.faults shelf.new) (F.shortages shelf.old) (F.shortages shelf.new) self.new.failed }
        ensures fails { wants_memory result ≡ self.new.failed }
        ensures content { F.content shelf.new ≡ F.content shelf.old }
        ensures absence { Reaches self.old.size self.old.name (F.content shelf.old) → F.absences shelf.new ≡ F.absences shelf.old }
    {
        if !self.takes_some() {
            return Step::Wait;
        }
        self.outgoing.clear();
        self.send_through(ask, shelf)
    }

    /// A request goes out through the multiplexer.
    fn send_through<F: Shelf>(&mut self, ask: Ask, shelf: &mut F) -> Step
        requires works { self.old.failed ≡ false }
        requires asks { ask_of ask ≡ next_ask self.old }
        requires free { is_waiting self.old.session.awaited ≡ false }
        requires none { self.old.rest ≡ [] }
        requires stage { self.old.stage ≡ Object }
        requires transport { self.old.transport ≡ transports.Rfcomm }
        ensures comes { Comes (sent_through (ask_of ask) self.old) (gone self.new result) self.old (F.content shelf.old) (F.faults shelf.old) (F.faults shelf.new) (F.shortages shelf.old) (F.shortages shelf.new) self.new.failed }
        ensures fails { wants_memory result ≡ self.new.failed }
        ensures content { F.content shelf.new ≡ F.content shelf.old }
        ensures absence { Reaches self.old.size self.old.name (F.content shelf.old) → F.absences shelf.new ≡ F.absences shelf.old }
    {
        let Ok(()) = self.request(ask, shelf) else {
            self.failed = true;
            return Step::NoMemory;
        };
        self.say_frame()
    }

    /// Whether the multiplexer takes octets now.
    fn takes_some(&self) -> bool
        ensures { result ≡ takes_some self.now.mux }
    {
        self.mux.is_ready() && !self.mux.has_data() && self.mux.has_credit()
    }

    /// The next frame of the multiplexer goes out, if there is one.
    fn say_frame(&mut self) -> Step
        requires stage { self.old.stage ≡ Object }
        requires transport { self.old.transport ≡ transports.Rfcomm }
        ensures steps { (parts : List Part) → says self.old parts ≡ gone self.new result parts }
        ensures failed { self.new.failed ≡ self.old.failed }
        ensures works { wants_memory result ≡ false }
    {
        self.say();
        if !self.frame.is_there() {
            return Step::Wait;
        }
        self.send_frame()
    }

    /// The frame that waits goes out.
    fn send_frame(&mut self) -> Step
        ensures step { result ≡ Step.SendSdu 3 }
        ensures client { self.new ≡ record (self.old) { given = true } }
    {
        self.given = true;
        Step::SendSdu(psm_of(RFCOMM_PSM))
    }

    /// The frame that the multiplexer says next waits, if there is one.
    fn say(&mut self)
        ensures stays { Stays self.old self.new }
        ensures alike { PutsAlike self.old self.new }
        ensures client { self.new ≡ said_next (filled self.old) }
    {
        self.fill();
        self.frame.say(&mut self.mux);
    }

    /// The multiplexer takes of the request what it may.
    fn fill(&mut self)
        ensures stays { Stays self.old self.new }
        ensures alike { PutsAlike self.old self.new }
        ensures client { self.new ≡ filled self.old }
    {
        if !self.mux.is_ready() || self.outgoing.is_empty() {
            return;
        }
        let count = self.mux.send(self.outgoing.octets());
        self.outgoing.cut(count);
    }
}
