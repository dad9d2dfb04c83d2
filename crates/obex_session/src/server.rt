//! The session of a server.

ghost use Rattle.std.specs.Prelude.{true, false, ◌≡◌, ◌≤◌, [], List, Option, None, length, IfSome};
ghost use Rattle.bt_base.specs.Objects.{Object, Contents};
ghost use Rattle.obex_session.specs.declared.course.Course.TheVariants.{Rests};
ghost use Rattle.obex_session.specs.Past.{StandsFor};
ghost use Rattle.obex_session.specs.Rules.{is_under_way, progress_in};
ghost use Rattle.obex_session.specs.Serving.{Hears, LetsGo, CountsShortages, IsUnasked, minds_inbox};

mod looking;

use crate::course::Course;
use crate::hearing::hear;
use crate::putting::end;
use crate::responding::{said_after, say};
use bt_base::{Inbox, NoMemory, PortFault};
use obex_headers::Code;
use std::marker::Model;

/// What a server answers a packet.
#[derive(Clone, Copy, Debug, PartialEq, Eq)]
pub enum Reply {
    /// A response, with how many octets it has.
    Respond(usize),
    /// None, as single response mode has it.
    Silent,
    /// The inbox found no memory: there is no response.
    NoMemory,
}

/// The server's side of an OBEX connection: it stores the objects that PUT packets spell, and
/// answers each packet (IrOBEX 1.5, 3.4; Object Push Profile 1.2, 4.3).
///
/// A clause sees a session by the greatest length of a packet that it takes, by whether it offers
/// single response mode, and by where it is in its packets.
#[derive(Debug, Drop)]
pub struct ServerSession {
    maximum: u16,
    offered: bool,
    course: Course,
}

impl Model for ServerSession {
    ghost use Rattle.std.specs.Prelude.{◌≤◌};
    ghost use Rattle.obex_session.specs.Past.{Serving};

    ghost Value = { Serving };

    ghost view = { λ session. record { maximum = session.maximum; offered = session.offered; course = session.course } };

    ghost invariant = { λ session. (255 ≤ session.maximum) × (session.maximum ≤ 32767) };
}

impl ServerSession {
    /// A session that takes packets of at most `maximum` octets, from 255 to 32,767, has heard none,
    /// and offers single response mode or does not.
    pub fn new(maximum: u16, offered: bool) -> ServerSession
        requires least { 255 ≤ maximum }
        requires most { maximum ≤ 32767 }
        ensures session { result ≡ record { maximum = maximum; offered = offered; course = Rests } }
        ensures history { (before : List Object) (content : Option Contents) → IfSome content (λ contents. contents ≡ record { stored = before; pending = None }) → StandsFor before [] result content }
    {
        ServerSession {
            maximum,
            offered,
            course: Course::Rests,
        }
    }

    /// Whether an object is under way: it was begun in the inbox, and neither stored nor aborted.
    pub fn is_under_way(&self) -> bool
        ensures { result ≡ is_under_way (progress_in self.now.course) }
    {
        self.course.progress().is_under_way()
    }

    /// Does what a packet asks for, and writes the response to the front of `into`.
    ///
    /// A PUT (02, final 82) is answered 90, and A0 where it is the last of an object, which is then
    /// stored. It is answered C0 where it is no packet of at most the session's maximum, with a
    /// second Name, with a body ahead of the Name, and where it is final and its object has no Name
    /// or no body; and CD with a Name above 255 units, and with more than 16,777,215 octets in all.
    /// CONNECT (80), DISCONNECT (81) and ABORT (FF) are answered A0, and any other code D1. All but
    /// 90 leave no object under way. D0 is answered in place of all these exactly where a call of
    /// the inbox failed, which leaves no object under way either; `NoMemory` where one found no
    /// memory. The response to what begins with 80 has version 1.0, no flags and the session's
    /// maximum.
    ///
    /// Where the session offers single response mode and the first PUT of an object enables it (97
    /// 01), the answer to that PUT confirms it (97 01), and of the others only the final one and a
    /// refusal are answered: the rest is `Silent`. After such a refusal, unless that of a final PUT,
    /// PUTs without a Name are passed over in silence, up to and with a final one.
    ///
    /// The inbox is asked only to note a Name and a body that break no rule, to store an object that
    /// is whole, and to drop one that is under way. A packet that asks none of this leaves it as it
    /// was, and is answered neither D0 nor `NoMemory`.
    ///
    /// It needs at least 7 octets of room, and an inbox whose pending object is the session's own,
    /// where one is under way; with a PUT with a Name and none under way, none may be pending.
    pub fn on_packet<B: Inbox>(&mut self, packet: &[u8], inbox: &mut B, into: &mut [u8]) -> Reply
        requires room { 7 ≤ length into.old }
        requires pending { minds_inbox self.old packet.now ≡ true → B.is_pending inbox.old ≡ is_under_way (progress_in self.old.course) }
        ensures hears { Hears self.old self.new packet.now (B.content inbox.old) (B.content inbox.new) (B.faults inbox.old) (B.faults inbox.new) (B.shortages inbox.old) (B.shortages inbox.new) into.old into.new result }
        ensures pending { minds_inbox self.old packet.now ≡ true → B.is_pending inbox.new ≡ is_under_way (progress_in self.new.course) }
        ensures unasked { minds_inbox self.old packet.now ≡ false → B.is_pending inbox.new ≡ B.is_pending inbox.old }
        ensures none { minds_inbox self.old packet.now ≡ false → is_under_way (progress_in self.new.course) ≡ false }
    {
        let heard = hear(self.maximum, self.course, packet, inbox);
        let saying = said_after(self.offered, self.course, heard.kind, heard.outcome);
        self.course = self.course.after(self.offered, heard.kind, heard.outcome);
        say(saying, packet, self.maximum, into)
    }

    /// Notes that the link went down: an object under way is dropped; where there is none, the inbox
    /// is not called. The session is as a new one then. `NoMemory` is answered where the inbox found
    /// no memory; where it failed otherwise, that is passed over.
    ///
    /// It needs an inbox whose pending object is the session's own, where one is under way.
    pub fn link_down<B: Inbox>(&mut self, inbox: &mut B) -> Result<(), NoMemory>
        ensures lets_go { LetsGo self.old self.new (B.content inbox.old) (B.content inbox.new) }
        ensures pending { is_under_way (progress_in self.old.course) ≡ true → B.is_pending inbox.new ≡ false }
        ensures unasked { is_under_way (progress_in self.old.course) ≡ false → IsUnasked (B.is_pending inbox.old) (B.is_pending inbox.new) (B.faults inbox.old) (B.faults inbox.new) (B.shortages inbox.old) (B.shortages inbox.new) result }
        ensures counts { CountsShortages (B.faults inbox.old) (B.faults inbox.new) (B.shortages inbox.old) (B.shortages inbox.new) result }
    {
        let ended = end(self.course.progress(), Code::Success, inbox);
        self.course = Course::Rests;
        match ended {
            Err(PortFault::NoMemory) => Err(NoMemory),
            _ => Ok(()),
        }
    }
}
