//! What matters of what is held of a channel, as its PDUs come.

ghost use Rattle.std.specs.Prelude.{◌≡◌, ◌++◌, IfOk, OnOk, map};
ghost use Rattle.capture.specs.declared.flow.Flow.TheVariants.{Into};
ghost use Rattle.link_talk.specs.Packets.{OverL2cap, OverRfcomm, carrier};
ghost use Rattle.link_talk.specs.Sdus.{spoken_as};
ghost use Rattle.link_readers.specs.talk_laws.specs.Sdus.{spoken_now};
ghost use Rattle.object_lines.specs.Ears.{plain_sdus};
ghost use Rattle.object_lines.specs.Tallies.{plain_told};
ghost use Rattle.object_lines.specs.Matters.{no_matter, ears_with, heard_with, told_with, matter_after, told_now};
ghost use Rattle.object_lines.specs.Matter.{plain_matter, carriage};

use crate::ears::Ear;
use crate::segments::Sdu;
use crate::streams::Streams;
use crate::tally::{Tally, Told};
use bt_base::NoMemory;
use capture::Flow;
use l2cap_config::Mode;
use link_talk::Party;
use std::alloc::Global;

/// The PSM of Object Push.
const OBJECT_PUSH: u16 = 0x1001;

/// The PSM of RFCOMM.
const RFCOMM: u16 = 0x0003;

/// How far the SDUs of each way are joined, what the multiplexer brought, and the tally of the PUTs that go on.
#[derive(Debug, Drop)]
pub(crate) struct Matter {
    out: Ear,
    into: Ear,
    streams: Streams,
    tally: Tally,
}

impl Matter {
    pub(crate) fn new(alloc: Global) -> Matter
        ensures { plain_matter result ≡ no_matter }
    {
        Matter {
            out: Ear::new(),
            into: Ear::new(),
            streams: Streams::new(alloc),
            tally: Tally::new(alloc),
        }
    }

    /// The SDU that is whole with a PDU.
    fn take<'p>(
        &mut self,
        alloc: Global,
        party: &Party,
        mode: Mode,
        flow: Flow,
        pdu: &'p [u8],
    ) -> Result<Option<Sdu<'p>>, NoMemory>
        ensures matter { OnOk result (plain_matter self.new ≡ record (plain_matter self.old) { ears = ears_with party.now (plain_matter self.old).ears (carriage flow pdu.now) }) }
        ensures sdus { IfOk result (λ sdu. map (spoken_as flow) (plain_sdus sdu) ≡ spoken_now party.now mode (plain_matter self.old).ears (carriage flow pdu.now)) }
    {
        match flow {
            Flow::Out => {
                let sdu = self.out.take(alloc, mode, u16::MAX, pdu)?;
                Ok(sdu)
            }
            Flow::Into => {
                let sdu = self.into.take(alloc, mode, party.frame, pdu)?;
                Ok(sdu)
            }
        }
    }

    /// A PDU more into its host, over L2CAP: each SDU is a packet.
    fn hear_packet(
        &mut self,
        alloc: Global,
        party: &Party,
        mode: Mode,
        found: &mut Vec<Told>,
        pdu: &[u8],
    ) -> Result<(), NoMemory>
        ensures matter { OnOk result (plain_matter self.new ≡ heard_with party.now OverL2cap mode (plain_matter self.old) (carriage Into pdu.now)) }
        ensures told { OnOk result (map plain_told found.new.items ≡ map plain_told found.old.items ++ told_with party.now OverL2cap mode (plain_matter self.old) (carriage Into pdu.now)) }
    {
        if let Some(sdu) = self.take(alloc, party, mode, Flow::Into, pdu)? {
            self.tally.hear(alloc, found, party.packet, sdu.octets())?;
        }
        Ok(())
    }

    /// A PDU more, either way, over RFCOMM.
    fn hear_frame(
        &mut self,
        alloc: Global,
        party: &Party,
        mode: Mode,
        found: &mut Vec<Told>,
        flow: Flow,
        pdu: &[u8],
    ) -> Result<(), NoMemory>
        ensures matter { OnOk result (plain_matter self.new ≡ heard_with party.now OverRfcomm mode (plain_matter self.old) (carriage flow pdu.now)) }
        ensures told { OnOk result (map plain_told found.new.items ≡ map plain_told found.old.items ++ told_with party.now OverRfcomm mode (plain_matter self.old) (carriage flow pdu.now)) }
    {
        if let Some(sdu) = self.take(alloc, party, mode, flow, pdu)? {
            let octets = sdu.octets();
            self.streams
                .hear(alloc, party, &mut self.tally, found, flow, octets)?;
        }
        Ok(())
    }

    /// A PDU more of the channel, whose protocol has that PSM.
    pub(crate) fn hear(
        &mut self,
        alloc: Global,
        party: &Party,
        psm: u16,
        mode: Mode,
        found: &mut Vec<Told>,
        flow: Flow,
        pdu: &[u8],
    ) -> Result<(), NoMemory>
        ensures matter { OnOk result (plain_matter self.new ≡ matter_after party.now (carrier psm) mode (plain_matter self.old) (carriage flow pdu.now)) }
        ensures told { OnOk result (map plain_told found.new.items ≡ map plain_told found.old.items ++ told_now party.now (carrier psm) mode (plain_matter self.old) (carriage flow pdu.now)) }
    {
        if psm == OBJECT_PUSH {
            return match flow {
                Flow::Out => Ok(()),
                Flow::Into => {
                    self.hear_packet(alloc, party, mode, found, pdu)?;
                    Ok(())
                }
            };
        }
        if psm == RFCOMM {
            self.hear_frame(alloc, party, mode, found, flow, pdu)?;
        }
        Ok(())
    }
}
