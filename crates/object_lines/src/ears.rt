//! The SDUs of a channel, one way, as its PDUs come.

ghost use Rattle.std.specs.Prelude.{◌≡◌, ◌++◌, false, [], IfOk, OnOk, option_map, drop};
ghost use Rattle.ertm_frames.specs.Joining.{joint, joined_by, ended_by, ended};
ghost use Rattle.link_readers.specs.talk_laws.specs.Sdus.{ear_after, segment_of, nothing_heard, sdus_with};
ghost use Rattle.object_lines.specs.Matters.{short_ear};
ghost use Rattle.object_lines.specs.Ears.{plain_segment, plain_begun, plain_sdus, plain_joining, plain_ear};

use crate::segments::{Begun, Joint, Sdu, Segment, joint_of, segment_of};
use bt_base::NoMemory;
use l2cap_config::Mode;
use std::alloc::Global;

/// The number of the I-frame that is picked next, and how far the segments are joined.
#[derive(Debug, Drop)]
pub(crate) struct Ear {
    next: u8,
    stopped: bool,
    begun: Option<Begun>,
}

/// What stands behind the basic header.
fn payload(pdu: &[u8]) -> &[u8]
    ensures { result.now ≡ drop 4 pdu.now }
{
    pdu.get(4..).unwrap_or(&[])
}

impl Ear {
    pub(crate) fn new() -> Ear
        ensures { plain_ear result ≡ nothing_heard }
    {
        Ear {
            next: 0,
            stopped: false,
            begun: None,
        }
    }

    /// The SDU that ends with a segment.
    fn join<'p>(
        &mut self,
        alloc: Global,
        segment: &Segment<'p>,
    ) -> Result<Option<Sdu<'p>>, NoMemory>
        requires { self.old.stopped ≡ false }
        ensures next { OnOk result (self.new.next ≡ self.old.next) }
        ensures joining { OnOk result (plain_joining self.new ≡ joined_by (joint (option_map plain_begun self.old.begun) (plain_segment segment.now))) }
        ensures sdus { IfOk result (λ sdu. plain_sdus sdu ≡ ended_by (joint (option_map plain_begun self.old.begun) (plain_segment segment.now))) }
    {
        let begun = self.begun.take();
        match joint_of(alloc, begun, segment)? {
            Joint::Misplaced => {
                self.stopped = true;
                Ok(None)
            }
            Joint::Begins(more) => {
                self.begun = Some(more);
                Ok(None)
            }
            Joint::Ends(sdu) => Ok(Some(sdu)),
        }
    }

    /// The SDU that is whole with a PDU in enhanced retransmission mode.
    fn hear<'p>(
        &mut self,
        alloc: Global,
        most: u16,
        pdu: &'p [u8],
    ) -> Result<Option<Sdu<'p>>, NoMemory>
        ensures ear { OnOk result (plain_ear self.new ≡ short_ear (ear_after most (plain_ear self.old) pdu.now)) }
        ensures sdus { IfOk result (λ sdu. plain_sdus sdu ≡ ended (plain_ear self.old).joining (segment_of most (plain_ear self.old) pdu.now)) }
    {
        let Some(segment) = segment_of(pdu, most, self.next) else {
            return Ok(None);
        };
        self.next = self.next % 64 + 1;
        if self.stopped {
            return Ok(None);
        }
        let sdu = self.join(alloc, &segment)?;
        Ok(sdu)
    }

    /// The SDU that is whole with a PDU (Core 5.1, Volume 3 Part A, 3.1, 3.3, 7.3 and 8.4).
    pub(crate) fn take<'p>(
        &mut self,
        alloc: Global,
        mode: Mode,
        most: u16,
        pdu: &'p [u8],
    ) -> Result<Option<Sdu<'p>>, NoMemory>
        ensures ear { OnOk result (plain_ear self.new ≡ short_ear (ear_after most (plain_ear self.old) pdu.now)) }
        ensures sdus { IfOk result (λ sdu. plain_sdus sdu ≡ sdus_with most mode (plain_ear self.old) pdu.now) }
    {
        let joined = self.hear(alloc, most, pdu)?;
        match mode {
            Mode::Basic => Ok(Some(Sdu::Lent(payload(pdu)))),
            Mode::Enhanced => Ok(joined),
        }
    }
}
