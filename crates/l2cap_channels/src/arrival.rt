//! What a channel makes of PDUs that come in for it.

ghost use Rattle.std.specs.Prelude.{◌≡◌, None, true, is_some};
ghost use Rattle.ertm_frames.specs.Frames.{plain, IsFrame};
ghost use Rattle.channel_model.specs.Changing.{setup_of};
ghost use Rattle.channel_model.specs.Carrying.{up_by};
ghost use Rattle.l2cap_channels.specs.Arriving.{plain_up, handed_at, fault_on, heard_setup, is_connected};
ghost use Rattle.l2cap_channels.specs.Places.{own_value};
ghost use Rattle.l2cap_channels.specs.Steps.{with_change};
ghost use Rattle.l2cap_channels.specs.Readings.{plain_reading, shown_by, taken_by, taken_on, IsRead, IsOpenOn};

use crate::place::Place;
use crate::reading::Reading;
use crate::setup::Own;
use crate::stage::Stage;
use crate::up::Up;
use ertm_frames::Frame;
use ertm_machine::Heard;
use ertm_model::ErtmReason;

impl<'a> Reading<'a> {
    /// What is taken of it while the own request for options waits for its response: a peer sends on a
    /// channel only once it answered that request, and where frames are expected a frame alone shows it
    /// (this project's own).
    fn shown(self) -> Reading<'a>
        ensures { plain_reading result ≡ shown_by (plain_reading self.entry) }
    {
        match self {
            Reading::Nothing => Reading::Nothing,
            Reading::Basic(sdu) => Reading::Basic(sdu),
            Reading::Framed(Ok(frame)) => Reading::Framed(Ok(frame)),
            Reading::Framed(Err(_)) => Reading::Nothing,
        }
    }
}

impl Own {
    /// What is taken of a PDU on the channel, by how far this request is.
    fn taken<'a>(&self, reading: Reading<'a>) -> Reading<'a>
        ensures { plain_reading result ≡ taken_by (own_value self.now) (plain_reading reading.entry) }
    {
        match self {
            Own::Unasked => Reading::Nothing,
            Own::Asking(_, _) => reading.shown(),
            Own::Granted => reading,
        }
    }
}

impl Place {
    ghost use Rattle.std.specs.Prelude.{⊤};
    ghost use Rattle.std.specs.Borrow.{sem};
    ghost use mathlib.Core.Option.{none};
    ghost use denote.Follow.{follows_so};
    ghost use Rattle.l2cap_channels.specs.contracts.place.Place.{the_row};
    ghost use Rattle.l2cap_channels.specs.Arriving.{HearsPlace};

    /// What is taken of a PDU that comes in for it.
    #[tactic(auto, using(crate::proofs::Taking::taken_read))]
    pub(crate) fn taken<'a>(&self, pdu: &'a [u8]) -> Reading<'a>
        ensures reads { plain_reading result ≡ taken_on (setup_of self.now.stage) pdu.now }
        ensures frame { IsRead (plain_reading result) }
        ensures open { IsOpenOn (setup_of self.now.stage) }
    {
        match self.stage {
            Stage::Connected(_) => self.setup.own.taken(self.line.read(pdu)),
            Stage::Leaving(_, _) => self.setup.own.taken(self.line.read(pdu)),
            Stage::Requested(_) | Stage::Closing(_, _, _) | Stage::Crossed(_, _) =>
                Reading::Nothing,
        }
    }

    /// An SDU that came in whole is handed up, unless the host asked for the end of the channel.
    pub(crate) fn hand_up<'a>(&self, sdu: &'a [u8]) -> Up<'a>
        ensures { plain_up result ≡ up_by (handed_at self.now.stage sdu.now) self.now }
    {
        match self.stage {
            Stage::Connected(_) => Up::Received {
                cid: self.own().get(),
                psm: self.psm().get(),
                sdu,
            },
            Stage::Requested(_)
            | Stage::Leaving(_, _)
            | Stage::Closing(_, _, _)
            | Stage::Crossed(_, _) => Up::Nothing,
        }
    }

    /// Why a frame closes its machine, where it does.
    pub(crate) fn fault(&self, frame: &Frame<'_>) -> Option<ErtmReason>
        requires { IsFrame (plain frame.now) }
        ensures { result ≡ fault_on (setup_of self.now.stage) (plain frame.now) }
    {
        match self.stage {
            Stage::Connected(_) => self.line.fault(frame),
            Stage::Leaving(_, _) => self.line.fault(frame),
            Stage::Requested(_) | Stage::Closing(_, _, _) | Stage::Crossed(_, _) => None,
        }
    }

    /// Its machine hears a frame that does not close it, and nothing is handed up.
    fn listen(&mut self, frame: Frame<'_>)
        requires there { is_some (setup_of self.old.stage) ≡ true }
        requires frame { IsFrame (plain frame) }
        requires stays { fault_on (setup_of self.old.stage) (plain frame) ≡ None }
        ensures { self.new ≡ record self.old { stage = with_change (heard_setup (plain frame.entry)) self.old.stage } }
    {
        let _not_handed_up = self.line.hear(frame);
    }

    /// Its machine hears a frame that does not close it. An SDU that comes to its end is handed up.
    fn lend<'a>(&'a mut self, frame: Frame<'a>) -> Up<'a>
        requires open { is_connected self.old.stage ≡ true }
        requires frame { IsFrame (plain frame) }
        requires stays { fault_on (setup_of self.old.stage) (plain frame) ≡ None }
        ensures* { sem 𝓛 (follows_so the_row the_row self.entry.ghost_name none (λ _ _. ⊤) (λ new. HearsPlace self.old (plain frame.entry) result new)) }
    {
        let (cid, psm) = (self.own().get(), self.psm().get());
        match self.line.hear(frame) {
            Heard::Sdu(sdu) => Up::Received { cid, psm, sdu },
            Heard::Nothing => Up::Nothing,
            Heard::Closed(_) => Up::Nothing,
        }
    }

    /// Whether it is there and the host did not ask for its end.
    fn is_connected(&self) -> bool
        ensures { result ≡ is_connected self.now.stage }
    {
        matches!(self.stage, Stage::Connected(_))
    }

    /// Its machine hears a frame that does not close it. An SDU that comes to its end is handed up, unless
    /// the host asked for the end of the channel.
    pub(crate) fn hear<'a>(&'a mut self, frame: Frame<'a>) -> Up<'a>
        requires there { is_some (setup_of self.old.stage) ≡ true }
        requires frame { IsFrame (plain frame) }
        requires stays { fault_on (setup_of self.old.stage) (plain frame) ≡ None }
        ensures* { sem 𝓛 (follows_so the_row the_row self.entry.ghost_name none (λ _ _. ⊤) (λ new. HearsPlace self.old (plain frame.entry) result new)) }
    {
        if self.is_connected() {
            return self.lend(frame);
        }
        self.listen(frame);
        Up::Nothing
    }
}
