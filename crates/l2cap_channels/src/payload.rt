//! PDUs that come in.

ghost use Rattle.std.specs.Prelude.{◌≡◌, ◌≤◌, ◌<◌, ◌+◌, [], None, true, is_some, length, slice_get, option_map};
ghost use Rattle.ertm_frames.specs.Frames.{plain, IsFrame};
ghost use Rattle.ertm_model.specs.Hearing.{refusal_fault};
ghost use Rattle.channel_model.specs.Changing.{to_stage};
ghost use Rattle.l2cap_channels.specs.Arriving.{plain_up, opened, opens, handed_up, fault_on, refused_at};
ghost use Rattle.l2cap_channels.specs.Finding.{on_place, place_setup};
ghost use Rattle.l2cap_channels.specs.Machine.{with_channels};
ghost use Rattle.l2cap_channels.specs.Readings.{plain_reading, taken_at, IsRead, IsOpenOn};
ghost use Rattle.l2cap_channels.specs.Steps.{with_setup_at};

use crate::channels::Channels;
use crate::reading::{Reading, payload_of};
use crate::timing::reason_of;
use crate::up::Up;
use ertm_frames::{Frame, FrameRefusal};
use ertm_model::ErtmReason;

/// The endpoint of the signalling channel (Core 5.1, Volume 3 Part A, 2.1).
const SIGNALLING: u16 = 0x0001;

/// Why a machine closes at a PDU that is no frame, where it does: a damaged one is dropped, as if it were
/// lost.
fn refusal_fault(refusal: FrameRefusal) -> Option<ErtmReason>
    ensures { result ≡ refusal_fault refusal }
{
    match refusal {
        FrameRefusal::Short => None,
        FrameRefusal::BadFcs => None,
        FrameRefusal::ReservedSet => Some(ErtmReason::BadFrame),
        FrameRefusal::BadStart => Some(ErtmReason::BadFrame),
        FrameRefusal::AboveMps => Some(ErtmReason::BadFrame),
    }
}

impl Channels {
    ghost use Rattle.std.specs.Prelude.{⊤};
    ghost use Rattle.std.specs.Borrow.{sem};
    ghost use mathlib.Core.Option.{none};
    ghost use denote.Follow.{follows_so};
    ghost use Rattle.l2cap_channels.specs.contracts.channels.Channels.{the_row};
    ghost use Rattle.l2cap_channels.specs.Arriving.{HearsFrame, HearsAt, Hears};

    /// What is taken of a PDU that comes in for the channel at a place.
    fn taken<'a>(&self, at: usize, pdu: &'a [u8]) -> Reading<'a>
        requires { at < length self.now.channels.held }
        ensures reads { plain_reading result ≡ taken_at (slice_get self.now.channels.held at) pdu.now }
        ensures frame { IsRead (plain_reading result) }
        ensures open { IsOpenOn (place_setup (slice_get self.now.channels.held at)) }
        ensures same { on_place (λ held. to_stage held held.stage) (slice_get self.now.channels.held at) self.now.channels ≡ self.now.channels }
    {
        self.places[at].taken(pdu)
    }

    /// What is handed up of an SDU that came in whole for the channel at a place.
    fn hand_up<'a>(&self, at: usize, sdu: &'a [u8]) -> Up<'a>
        requires { at < length self.now.channels.held }
        ensures { plain_up result ≡ handed_up (slice_get self.now.channels.held at) sdu.now }
    {
        self.places[at].hand_up(sdu)
    }

    /// Why a frame closes the machine of the channel at a place, where it does.
    fn fault(&self, at: usize, frame: &Frame<'_>) -> Option<ErtmReason>
        requires place { at < length self.now.channels.held }
        requires frame { IsFrame (plain frame.now) }
        ensures { result ≡ fault_on (place_setup (slice_get self.now.channels.held at)) (plain frame.now) }
    {
        self.places[at].fault(frame)
    }

    /// The own request for options of the channel at a place is accepted, where it waits.
    fn open(&mut self, at: usize)
        requires place { at < length self.old.channels.held }
        requires room { length self.old.channels.events < 168 }
        ensures after { self.new ≡ with_channels self.old (on_place (with_setup_at opens) (slice_get self.old.channels.held at) self.old.channels) }
        ensures few { length self.new.channels.events ≤ length self.old.channels.events + 1 }
        ensures there { slice_get self.new.channels.held at ≡ option_map opened (slice_get self.old.channels.held at) }
    {
        if self.asked(at).is_some() {
            self.grant(at);
        }
    }

    /// A PDU comes in for the channel at a place that is no frame, where a machine expects one.
    fn refuse_frame(&mut self, at: usize, refusal: FrameRefusal)
        requires place { at < length self.old.channels.held }
        requires room { length self.old.channels.events < 168 }
        ensures { self.new ≡ with_channels self.old (refused_at (refusal_fault refusal) (slice_get self.old.channels.held at) self.old.channels) }
    {
        if let Some(reason) = refusal_fault(refusal) {
            self.close(at, reason_of(reason));
        }
    }

    /// The machine of the channel at a place hears a frame that does not close it.
    fn hear_frame<'a>(&'a mut self, at: usize, frame: Frame<'a>) -> Up<'a>
        requires place { at < length self.old.channels.held }
        requires there { is_some (place_setup (slice_get self.old.channels.held at)) ≡ true }
        requires frame { IsFrame (plain frame) }
        requires stays { fault_on (place_setup (slice_get self.old.channels.held at)) (plain frame) ≡ None }
        ensures* { sem 𝓛 (follows_so the_row the_row self.entry.ghost_name none (λ _ _. ⊤) (λ new. HearsFrame self.old at (plain frame.entry) result new)) }
    {
        let place = &mut self.places[at];
        place.hear(frame)
    }

    /// A PDU comes in for the channel at a place.
    fn hear_payload<'a>(&'a mut self, at: usize, pdu: &'a [u8]) -> Up<'a>
        requires place { at < length self.old.channels.held }
        requires room { self.old.channels.events ≡ [] }
        ensures* { sem 𝓛 (follows_so the_row the_row self.entry.ghost_name none (λ _ _. ⊤) (λ new. HearsAt self.old at pdu.now result new)) }
    {
        match self.taken(at, pdu) {
            Reading::Nothing => Up::Nothing,
            Reading::Basic(sdu) => {
                let up = self.hand_up(at, sdu);
                self.open(at);
                up
            }
            Reading::Framed(Err(refusal)) => {
                self.refuse_frame(at, refusal);
                Up::Nothing
            }
            Reading::Framed(Ok(frame)) => {
                self.open(at);
                if let Some(reason) = self.fault(at, &frame) {
                    self.close(at, reason_of(reason));
                    return Up::Nothing;
                }
                self.hear_frame(at, frame)
            }
        }
    }

    /// Hears a whole PDU, with its header, for an endpoint: 0x0001 is that of signalling. What is handed up
    /// is lent from the PDU, or from the channel where the SDU came in more than one frame. A PDU for an
    /// endpoint without a channel, or for a channel before the peer's options are accepted, is ignored.
    pub fn on_pdu<'a>(&'a mut self, cid: u16, pdu: &'a [u8]) -> Up<'a>
        requires { self.old.channels.events ≡ [] }
        ensures* { sem 𝓛 (follows_so the_row the_row self.entry.ghost_name none (λ _ _. ⊤) (λ new. Hears self.old cid pdu.now result new)) }
    {
        if cid == SIGNALLING {
            self.hear_commands(payload_of(pdu));
            return Up::Nothing;
        }
        let Some(at) = self.place_of(cid) else {
            return Up::Nothing;
        };
        self.hear_payload(at, pdu)
    }
}
