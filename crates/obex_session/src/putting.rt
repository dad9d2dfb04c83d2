//! PUT packets: their headers in order, each with what the inbox is asked for it.

ghost use Rattle.std.specs.Prelude.{◌≡◌, false, ◌==◌, List, [], if◌then◌else◌};
ghost use Rattle.std.specs.List.{AllByRecursion};
ghost use Rattle.obex_headers.specs.Packets.{PlainHeader, IsHeader, IsText, units_of, headers_octets, plain_header};
ghost use Rattle.obex_session.specs.Hearing.{Heeds, is_pending_after};
ghost use Rattle.obex_session.specs.Rules.{is_under_way, ends, at_name, at_body, at_header, after_headers, then_at, finished, opens};

use crate::course::{Progress, Verdict};
use bt_base::{Inbox, PortFault};
use obex_headers::identifiers::{BODY, END_OF_BODY, NAME};
use obex_headers::{Code, Header, HeaderValue, Packet, headers_of, name_units};

/// The greatest length of a Name, in UTF-16 units.
const MOST_UNITS: usize = 255;

/// The greatest length of an object, in octets.
const MOST_OCTETS: usize = 16_777_215;

/// Ends the object, if one is under way, without storing it.
pub(crate) fn end<B: Inbox>(
    progress: Progress,
    code: Code,
    inbox: &mut B,
) -> Result<Verdict, PortFault>
    ensures heeds { Heeds (ends progress code) (B.content inbox.old) (B.content inbox.new) (B.faults inbox.old) (B.faults inbox.new) (B.shortages inbox.old) (B.shortages inbox.new) result }
    ensures pending { B.is_pending inbox.new ≡ (if is_under_way progress then false else B.is_pending inbox.old) }
{
    if progress.is_under_way() {
        inbox.abort()?;
    }
    Ok(Verdict::Ended(code))
}

/// A Name: it begins the object.
fn on_name<B: Inbox>(progress: Progress, text: &[u8], inbox: &mut B) -> Result<Verdict, PortFault>
    requires text { IsText text.now }
    requires pending { B.is_pending inbox.old ≡ is_under_way progress }
    ensures heeds { Heeds (at_name progress (units_of text.now)) (B.content inbox.old) (B.content inbox.new) (B.faults inbox.old) (B.faults inbox.new) (B.shortages inbox.old) (B.shortages inbox.new) result }
    ensures pending { B.is_pending inbox.new ≡ is_pending_after result }
{
    if progress.is_under_way() {
        return end(progress, Code::BadRequest, inbox);
    }
    let mut units = [0u16; MOST_UNITS];
    let Some(count) = name_units(text, &mut units) else {
        return end(progress, Code::TooLarge, inbox);
    };
    inbox.begin(&units[..count])?;
    Ok(Verdict::Open(Progress::Named))
}

/// A body: it is appended to the object.
fn on_body<B: Inbox>(progress: Progress, octets: &[u8], inbox: &mut B) -> Result<Verdict, PortFault>
    requires pending { B.is_pending inbox.old ≡ is_under_way progress }
    ensures heeds { Heeds (at_body progress octets.now) (B.content inbox.old) (B.content inbox.new) (B.faults inbox.old) (B.faults inbox.new) (B.shortages inbox.old) (B.shortages inbox.new) result }
    ensures pending { B.is_pending inbox.new ≡ is_pending_after result }
{
    let before = match progress {
        Progress::Unnamed => return end(progress, Code::BadRequest, inbox),
        Progress::Named => 0,
        Progress::Filled(before) => before,
    };
    let total = before as usize + octets.len();
    if total > MOST_OCTETS {
        return end(progress, Code::TooLarge, inbox);
    }
    inbox.append(octets)?;
    Ok(Verdict::Open(Progress::Filled(total as u32)))
}

/// A header. All but Name and body decide nothing.
fn on_header<B: Inbox>(
    progress: Progress,
    header: &Header<'_>,
    inbox: &mut B,
) -> Result<Verdict, PortFault>
    requires sound { IsHeader (plain_header header.now) }
    requires pending { B.is_pending inbox.old ≡ is_under_way progress }
    ensures heeds { Heeds (at_header progress (plain_header header.now)) (B.content inbox.old) (B.content inbox.new) (B.faults inbox.old) (B.faults inbox.new) (B.shortages inbox.old) (B.shortages inbox.new) result }
    ensures pending { B.is_pending inbox.new ≡ is_pending_after result }
{
    match header.value {
        HeaderValue::Text(text) if header.id == NAME => on_name(progress, text, inbox),
        HeaderValue::Octets(octets) if header.id == BODY || header.id == END_OF_BODY => {
            on_body(progress, octets, inbox)
        }
        _ => Ok(Verdict::Open(progress)),
    }
}

/// The headers of a PUT in order, up to the first that breaks a rule.
fn on_headers<B: Inbox>(
    progress: Progress,
    request: &Packet<'_>,
    inbox: &mut B,
) -> Result<Verdict, PortFault>
    requires pending { B.is_pending inbox.old ≡ is_under_way progress }
    ensures heeds { (headers : List PlainHeader) → AllByRecursion IsHeader headers → request.now.headers.now ≡ headers_octets headers →
        Heeds (after_headers progress headers) (B.content inbox.old) (B.content inbox.new) (B.faults inbox.old) (B.faults inbox.new) (B.shortages inbox.old) (B.shortages inbox.new) result }
    ensures pending { B.is_pending inbox.new ≡ is_pending_after result }
{
    let mut left = headers_of(request);
    let mut progress = progress;
    while let Some(header) = left.next() {
        match on_header(progress, &header, inbox)? {
            Verdict::Open(next) => progress = next,
            ended => return Ok(ended),
        }
    }
    Ok(Verdict::Open(progress))
}

/// The end of an object: it is stored where it has a Name and a body.
fn finish<B: Inbox>(progress: Progress, inbox: &mut B) -> Result<Verdict, PortFault>
    requires pending { B.is_pending inbox.old ≡ is_under_way progress }
    ensures heeds { Heeds (finished progress) (B.content inbox.old) (B.content inbox.new) (B.faults inbox.old) (B.faults inbox.new) (B.shortages inbox.old) (B.shortages inbox.new) result }
    ensures pending { B.is_pending inbox.new ≡ is_pending_after result }
{
    match progress {
        Progress::Unnamed | Progress::Named => end(progress, Code::BadRequest, inbox),
        Progress::Filled(_) => {
            inbox.commit()?;
            Ok(Verdict::Whole)
        }
    }
}

/// A PUT: its headers, and its end where it is final.
pub(crate) fn on_put<B: Inbox>(
    progress: Progress,
    request: &Packet<'_>,
    inbox: &mut B,
) -> Result<Verdict, PortFault>
    requires pending { B.is_pending inbox.old ≡ is_under_way progress }
    ensures heeds { (headers : List PlainHeader) → AllByRecursion IsHeader headers → request.now.headers.now ≡ headers_octets headers →
        Heeds (then_at (after_headers progress headers) (λ next. if request.now.code == 0x82 then finished next else opens [] next)) (B.content inbox.old) (B.content inbox.new) (B.faults inbox.old) (B.faults inbox.new) (B.shortages inbox.old) (B.shortages inbox.new) result }
    ensures pending { B.is_pending inbox.new ≡ is_pending_after result }
{
    match on_headers(progress, request, inbox)? {
        Verdict::Open(next) if request.code == Code::FinalPut.octet() => finish(next, inbox),
        verdict => Ok(verdict),
    }
}
