//! What a server makes of the packets over both transports.

ghost use Rattle.std.specs.Prelude.{◌≡◌, ◌≤◌, true, false, is_err};
ghost use Rattle.obex_session.specs.Counting.{counts_of};
ghost use Rattle.push_model.specs.Service.{new_service};
ghost use Rattle.push_model.specs.Sessions.{is_pending};
ghost use Rattle.obex_headers.specs.Reading.{packet_in};
ghost use Rattle.obex_headers.specs.declared.packet.Phase.TheVariants.{Request};
ghost use Rattle.push_model.specs.Listening.{stops, is_length, has_bad_length, heeds, heeds_carried, heeds_broken, lets_go_by};
ghost use Rattle.push_model.specs.Server.{unanswering};
ghost use Rattle.push_profile.specs.Reactions.{Comes};
ghost use Rattle.push_profile.specs.Hearing.{heeded, longest};

use crate::service::Service;
use bt_base::{Inbox, NoMemory, Transport};
use obex_headers::{ObexRefusal, Phase, packet_of};
use std::marker::Model;

/// The service, and whether the multiplexer is to be closed once the response is out. A clause sees both.
#[derive(Drop)]
pub(crate) struct Listener {
    pub(crate) service: Service,
    pub(crate) breaks: bool,
    /// The longest packet that the session over RFCOMM takes, in octets.
    longest: u16,
}

impl Model for Listener {
    ghost use Rattle.std.specs.Prelude.{◌≡◌};
    ghost use Rattle.push_model.specs.Listening.{Listener};

    ghost Value = { Listener };

    ghost view = { λ listener. record { service = listener.service; breaks = listener.breaks } };

    ghost invariant = { λ listener. listener.longest ≡ listener.service.sessions.carried.maximum };
}

fn is_length(refusal: ObexRefusal) -> bool
    ensures { result ≡ is_length refusal }
{
    matches!(refusal, ObexRefusal::BadLength | ObexRefusal::AboveMaximum)
}

/// Whether a request is refused for its length.
fn has_bad_length(packet: &[u8], maximum: u16) -> bool
    ensures { result ≡ has_bad_length (packet_in Request maximum packet.now) }
{
    let Err(refusal) = packet_of(packet, Phase::Request, maximum) else {
        return false;
    };
    is_length(refusal)
}

impl Listener {
    /// A listener that heard nothing, with sessions that take packets of at most so many octets. The one over L2CAP offers
    /// single response mode or does not.
    pub(crate) fn new(direct: u16, carried: u16, offered: bool) -> Listener
        requires direct { (255 ≤ direct) × (direct ≤ 32767) }
        requires carried { (255 ≤ carried) × (carried ≤ 32767) }
        ensures { result ≡ record { service = new_service direct carried offered; breaks = false } }
    {
        Listener {
            service: Service::new(direct, carried, offered),
            breaks: false,
            longest: carried,
        }
    }

    /// Whether nothing more of a stream is read.
    pub(crate) fn stops(&self) -> bool
        ensures { result ≡ stops self.now }
    {
        self.breaks || self.service.failed
    }

    /// No response over RFCOMM waits any more, and the multiplexer is not to be closed.
    pub(crate) fn clear_answer(&mut self)
        ensures { self.new ≡ unanswering self.old }
    {
        self.service.clear_answer();
        self.breaks = false;
    }

    /// Hears a packet over a transport.
    pub(crate) fn hear<B: Inbox>(
        &mut self,
        transport: Transport,
        packet: &[u8],
        inbox: &mut B,
    ) -> Result<(), NoMemory>
        requires pending { B.is_pending inbox.old ≡ is_pending self.old.service.sessions }
        requires works { self.old.service.failed ≡ false }
        ensures comes { Comes (heeds transport packet.now self.old) (heeded self.new) (B.content inbox.old) (B.content inbox.new) (counts_of B.faults B.shortages inbox.old) (counts_of B.faults B.shortages inbox.new) (is_err result) }
        ensures fails { is_err result ≡ self.new.service.failed }
        ensures longest { longest self.new ≡ longest self.old }
        ensures breaks { self.new.breaks ≡ self.old.breaks }
        ensures pending { B.is_pending inbox.new ≡ is_pending self.new.service.sessions }
    {
        self.service.hear(transport, packet, inbox)
    }

    /// Lets go of an object that is under way over a transport.
    pub(crate) fn part<B: Inbox>(
        &mut self,
        transport: Transport,
        inbox: &mut B,
    ) -> Result<(), NoMemory>
        requires pending { B.is_pending inbox.old ≡ is_pending self.old.service.sessions }
        requires works { self.old.service.failed ≡ false }
        ensures comes { Comes (lets_go_by transport self.old) (heeded self.new) (B.content inbox.old) (B.content inbox.new) (counts_of B.faults B.shortages inbox.old) (counts_of B.faults B.shortages inbox.new) (is_err result) }
        ensures fails { is_err result ≡ self.new.service.failed }
        ensures longest { longest self.new ≡ longest self.old }
        ensures pending { B.is_pending inbox.new ≡ is_pending self.new.service.sessions }
    {
        self.service.part(transport, inbox)
    }

    /// Hears a packet of the stream over RFCOMM.
    pub(crate) fn hear_carried<B: Inbox>(
        &mut self,
        packet: &[u8],
        inbox: &mut B,
    ) -> Result<(), NoMemory>
        requires pending { B.is_pending inbox.old ≡ is_pending self.old.service.sessions }
        requires works { self.old.service.failed ≡ false }
        ensures comes { Comes (heeds_carried packet.now self.old) (heeded self.new) (B.content inbox.old) (B.content inbox.new) (counts_of B.faults B.shortages inbox.old) (counts_of B.faults B.shortages inbox.new) (is_err result) }
        ensures fails { is_err result ≡ self.new.service.failed }
        ensures longest { longest self.new ≡ longest self.old }
        ensures pending { B.is_pending inbox.new ≡ is_pending self.new.service.sessions }
    {
        self.breaks = has_bad_length(packet, self.longest);
        self.hear(Transport::Rfcomm, packet, inbox)
    }

    /// Hears octets that begin no packet.
    pub(crate) fn hear_broken<B: Inbox>(
        &mut self,
        octets: &[u8],
        inbox: &mut B,
    ) -> Result<(), NoMemory>
        requires pending { B.is_pending inbox.old ≡ is_pending self.old.service.sessions }
        requires works { self.old.service.failed ≡ false }
        ensures comes { Comes (heeds_broken octets.now self.old) (heeded self.new) (B.content inbox.old) (B.content inbox.new) (counts_of B.faults B.shortages inbox.old) (counts_of B.faults B.shortages inbox.new) (is_err result) }
        ensures fails { is_err result ≡ self.new.service.failed }
        ensures longest { longest self.new ≡ longest self.old }
        ensures pending { B.is_pending inbox.new ≡ is_pending self.new.service.sessions }
    {
        self.breaks = true;
        self.hear(Transport::Rfcomm, octets, inbox)
    }
}
