//! Packets as a server hears them.

ghost use Rattle.std.specs.Prelude.{◌≡◌, true, false, ◌==◌, ◌||◌, Ok, if◌then◌else◌};
ghost use Rattle.std.specs.List.{AllByRecursion};
ghost use Rattle.obex_headers.specs.Packets.{PlainPacket, IsHeader, Shows};
ghost use Rattle.obex_headers.specs.Reading.{packet_in};
ghost use Rattle.obex_headers.specs.declared.packet.Phase.TheVariants.{Request};
ghost use Rattle.obex_session.specs.Hearing.{Heeds, progress_after};
ghost use Rattle.obex_session.specs.Marks.{kind_of};
ghost use Rattle.obex_session.specs.Rules.{is_under_way, is_ignoring, progress_in, other_response, at_packet};
ghost use Rattle.obex_session.specs.Serving.{has_name};
ghost use Rattle.obex_session.specs.declared.course.Progress.TheVariants.{Unnamed};
ghost use Rattle.obex_session.specs.declared.course.Verdict.TheVariants.{PassedOver, Ended, Open};

use crate::course::{Course, Progress, Verdict};
use crate::marks::{Kind, kind_of};
use crate::putting::{end, on_put};
use bt_base::{Inbox, PortFault};
use obex_headers::{Code, Packet, Phase, packet_of};

/// What came of a packet.
#[derive(Debug, Drop)]
pub(crate) struct Heard {
    /// What it is to the server.
    pub(crate) kind: Kind,
    /// The verdict on it, or the fault of an inbox call.
    pub(crate) outcome: Result<Verdict, PortFault>,
}

/// The response to a packet that is no PUT.
fn other_response(code: u8) -> Code
    ensures { result ≡ other_response code }
{
    let succeeds = code == Code::Connect.octet()
        || code == Code::Disconnect.octet()
        || code == Code::Abort.octet();
    if succeeds {
        Code::Success
    } else {
        Code::NotImplemented
    }
}

/// The verdict on a PUT without a Name where no object is under way: it needs no inbox.
fn nameless_verdict(course: Course, has_body: bool, is_final: bool) -> Verdict
    ensures { result ≡ (if is_ignoring course then PassedOver is_final else (if has_body || is_final then Ended Code.BadRequest else Open Unnamed)) }
{
    if course.is_ignoring() {
        Verdict::PassedOver(is_final)
    } else if has_body || is_final {
        Verdict::Ended(Code::BadRequest)
    } else {
        Verdict::Open(Progress::Unnamed)
    }
}

/// Whether the packet has to do with the inbox: an object is under way, or it is a PUT with a Name.
fn minds_inbox(course: Course, kind: Kind) -> bool
    ensures { result ≡ (is_under_way (progress_in course) || has_name kind) }
{
    let named = match kind {
        Kind::Put(_, marks) => marks.name,
        Kind::Refused | Kind::Other(_) => false,
    };
    course.progress().is_under_way() || named
}

/// What the rules say of a packet that was read, done in the inbox.
fn on_request<B: Inbox>(
    course: Course,
    kind: Kind,
    request: &Packet<'_>,
    inbox: &mut B,
) -> Result<Verdict, PortFault>
    requires pending { (is_under_way (progress_in course) || has_name kind) ≡ true → B.is_pending inbox.old ≡ is_under_way (progress_in course) }
    ensures heeds { (packet : PlainPacket) → AllByRecursion IsHeader packet.headers → Shows request.now packet → kind ≡ kind_of (Ok packet) →
        Heeds (at_packet course (Ok packet)) (B.content inbox.old) (B.content inbox.new) (B.faults inbox.old) (B.faults inbox.new) (B.shortages inbox.old) (B.shortages inbox.new) result }
    ensures pending { B.is_pending inbox.new ≡ (if is_under_way (progress_in course) || has_name kind then is_under_way (progress_after result) else B.is_pending inbox.old) }
    ensures unnamed { (is_under_way (progress_in course) || has_name kind) ≡ false → is_under_way (progress_after result) ≡ false }
{
    let Kind::Put(is_final, marks) = kind else {
        return end(course.progress(), other_response(request.code), inbox);
    };
    if minds_inbox(course, kind) {
        on_put(course.progress(), request, inbox)
    } else {
        Ok(nameless_verdict(course, marks.body, is_final))
    }
}

/// What the rules say of octets, done in the inbox.
pub(crate) fn hear<B: Inbox>(maximum: u16, course: Course, packet: &[u8], inbox: &mut B) -> Heard
    requires pending { (is_under_way (progress_in course) || has_name (kind_of (packet_in Request maximum packet.now))) ≡ true → B.is_pending inbox.old ≡ is_under_way (progress_in course) }
    ensures kind { result.kind ≡ kind_of (packet_in Request maximum packet.now) }
    ensures heeds { Heeds (at_packet course (packet_in Request maximum packet.now)) (B.content inbox.old) (B.content inbox.new) (B.faults inbox.old) (B.faults inbox.new) (B.shortages inbox.old) (B.shortages inbox.new) result.outcome }
    ensures pending { B.is_pending inbox.new ≡ (if is_under_way (progress_in course) || has_name result.kind then is_under_way (progress_after result.outcome) else B.is_pending inbox.old) }
    ensures unnamed { (is_under_way (progress_in course) || has_name result.kind) ≡ false → is_under_way (progress_after result.outcome) ≡ false }
{
    let Ok(request) = packet_of(packet, Phase::Request, maximum) else {
        return Heard {
            kind: Kind::Refused,
            outcome: end(course.progress(), Code::BadRequest, inbox),
        };
    };
    let kind = kind_of(&request);
    Heard {
        kind,
        outcome: on_request(course, kind, &request, inbox),
    }
}
