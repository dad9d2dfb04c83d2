//! What a client hears of its channels.

ghost use Rattle.std.specs.Prelude.{◌≡◌, ◌≤◌};
ghost use Rattle.push_model.specs.Events.{own_frame, muxed_anew, object_opened, opened_at, search_closed, closed_at, hears_object, hears_outside, sdu_at};
ghost use Rattle.push_model.specs.Causes.{cause_of_close};
ghost use Rattle.push_model.specs.Responding.{hears_frame, hears_up, hears_end, is_left};
ghost use Rattle.push_model.specs.rfcomm_model.specs.Hearing.{up, hears};

use super::{FRAME_SIZE, LONGEST_PACKET, PushClient, SEARCH_PSM};
use crate::causes::{of_close, of_mux, small_channel, unawaited_response};
use bt_base::{Psm, Transport};
use push_model::{CloseCause, Contact, Point, Stage};
use rfcomm_mux::{MuxReason, MuxUp};

/// The least number of octets that a channel for an object takes at a time.
const LEAST_LIMIT: u16 = 255;

/// The least frame size of a multiplexer (RFCOMM 1.2, 5.3).
const LEAST_FRAME: u16 = 23;

/// The largest own frame of a multiplexer over a channel that takes so many octets at a time.
fn own_frame(largest: u16, mtu: u16) -> u16
    ensures { result ≡ own_frame largest mtu }
{
    largest.min(mtu.saturating_sub(FRAME_SIZE)).max(LEAST_FRAME)
}

/// Whether the multiplexer was closed by the answer to its own last DISC.
fn is_left(contact: Contact, reason: MuxReason) -> bool
    ensures { result ≡ is_left contact reason }
{
    matches!((contact, reason), (Contact::Closing, MuxReason::Disc))
}

impl PushClient {
    /// SDUs may be sent on the channel to that PSM, each of so many octets at most.
    pub(super) fn channel_open(&mut self, psm: Psm, mtu: u16)
        ensures { self.new ≡ opened_at self.old.stage psm mtu self.old }
    {
        let number = psm.get();
        match self.stage() {
            Stage::SearchChannel(Point::Asked) if number == SEARCH_PSM => {
                self.reception.dialog.course.stage = Stage::Search;
            }
            Stage::ObjectChannel(Point::Asked) if number == self.psm.get() => {
                self.open_object(mtu);
            }
            _ => {}
        }
    }

    /// The channel of the object is there.
    fn open_object(&mut self, mtu: u16)
        ensures { self.new ≡ object_opened self.old.transport mtu self.old }
    {
        match self.transport {
            Transport::L2cap if mtu < LEAST_LIMIT => {
                self.reception.dialog.course.end(small_channel());
            }
            Transport::L2cap => {
                self.reception.dialog.course.stage = Stage::Object;
                self.limit = mtu.min(LONGEST_PACKET);
            }
            Transport::Rfcomm => {
                self.begin_mux(mtu);
                self.limit = LONGEST_PACKET;
            }
        }
    }

    /// The multiplexer is begun anew, on the server channel that the service record names.
    fn begin_mux(&mut self, mtu: u16)
        ensures { self.new ≡ muxed_anew mtu self.old }
    {
        self.reception.dialog.course.stage = Stage::Object;
        let frame = own_frame(self.mux.largest(), mtu);
        self.mux.reset_on(self.channel, frame);
    }

    /// The channel to that PSM was closed, or not made.
    pub(super) fn channel_closed(&mut self, psm: Psm, cause: CloseCause)
        ensures { self.new ≡ closed_at self.old.stage psm cause self.old }
    {
        let is_search = psm.get() == SEARCH_PSM;
        let is_object = psm.get() == self.psm.get();
        match self.stage() {
            Stage::SearchChannel(Point::Asked) | Stage::Search if is_search => {
                self.reception.dialog.course.end_if(of_close(cause));
            }
            Stage::SearchEnd(_) if is_search => self.search_closed(cause),
            Stage::ObjectChannel(Point::Asked) | Stage::Object if is_object => {
                self.reception.dialog.course.end_if(of_close(cause));
            }
            Stage::ObjectEnd(_) if is_object => {
                self.reception.dialog.course.stage = Stage::LinkEnd(Point::Due);
            }
            _ => {}
        }
    }

    /// The channel to the service records is no more, where the client closes it.
    fn search_closed(&mut self, cause: CloseCause)
        ensures { self.new ≡ search_closed (cause_of_close cause) self.old }
    {
        if let Some(outcome) = of_close(cause) {
            self.reception.dialog.course.end(outcome);
            return;
        }
        let course = &mut self.reception.dialog.course;
        course.stage = match (course.cause, self.transport) {
            (Some(_), _) => Stage::LinkEnd(Point::Due),
            (None, Transport::L2cap) => Stage::Features(Point::Due),
            (None, Transport::Rfcomm) => Stage::ObjectChannel(Point::Due),
        };
    }

    /// An SDU came in on the channel to that PSM.
    pub fn hear_sdu(&mut self, psm: Psm, sdu: &[u8])
        ensures { self.new ≡ sdu_at self.old.stage psm sdu.now self.old }
    {
        let is_search = psm.get() == SEARCH_PSM;
        let is_object = psm.get() == self.psm.get();
        match self.stage() {
            Stage::Search if is_search => self.hear_reply(sdu),
            Stage::Object if is_object => self.hear_object(sdu),
            Stage::ObjectChannel(_) | Stage::ObjectEnd(_) if is_object => self.hear_outside(),
            _ => {}
        }
    }

    /// An SDU came in on the channel of the object ahead of its opening, or behind its end.
    fn hear_outside(&mut self)
        ensures { self.new ≡ hears_outside self.old.transport self.old }
    {
        match self.transport {
            Transport::L2cap => self.reception.dialog.course.end(unawaited_response()),
            Transport::Rfcomm => {}
        }
    }

    /// An SDU came in on the channel of the object.
    fn hear_object(&mut self, sdu: &[u8])
        ensures { self.new ≡ hears_object self.old.transport sdu.now self.old }
    {
        match self.transport {
            Transport::L2cap => self.reception.dialog.hear_response(sdu),
            Transport::Rfcomm => self.hear_frame(sdu),
        }
    }

    /// Hears a frame of the multiplexer.
    fn hear_frame(&mut self, sdu: &[u8])
        ensures { self.new ≡ hears_frame sdu.now self.old }
    {
        match self.mux.on_sdu(sdu) {
            MuxUp::Bytes(octets) => self.reception.hear(octets),
            MuxUp::Closed(reason) => self.hear_end(reason),
            MuxUp::Nothing | MuxUp::Opened => {}
        }
    }

    /// The multiplexer was closed.
    fn hear_end(&mut self, reason: MuxReason)
        ensures { self.new ≡ hears_end reason self.old }
    {
        if is_left(self.reception.dialog.contact, reason) {
            self.reception.dialog.course.stage = Stage::ObjectEnd(Point::Due);
        } else {
            self.reception.dialog.course.end(of_mux(reason));
        }
    }
}
