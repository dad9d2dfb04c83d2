//! The OBEX packets that a multiplexer brings into its host, SDU by SDU.

ghost use Rattle.std.specs.Prelude.{◌≡◌, ◌++◌, ◌≤◌, ◌<◌, Some, IfOk, OnOk, MatchOption, length, map, fold, take, drop, option_map};
ghost use Rattle.rfcomm_frames.specs.ObexPackets.{IsPacket, HasNoPacket, obex_packets};
ghost use Rattle.capture.specs.declared.flow.Flow.TheVariants.{Into};
ghost use Rattle.link_talk.specs.declared.party.Party.{Party as PlainParty};
ghost use Rattle.link_talk.specs.Packets.{OverRfcomm, role_of};
ghost use Rattle.link_talk.specs.Frames.{octets_heard};
ghost use Rattle.link_talk.specs.Sdus.{spoken_as};
ghost use Rattle.link_talk.specs.ObjectsHeard.{put_within};
ghost use Rattle.link_readers.specs.talk_laws.specs.Packets.{no_streams, frame_of, course_by, closed_by, stream_with, streams_after, packets_now, rest_of};
ghost use Rattle.object_lines.specs.Tallies.{tally_after, told_from, plain_told, plain_tally};
ghost use Rattle.object_lines.specs.Matters.{is_stuck, short_stream, short_streams, puts_of};
ghost use Rattle.object_lines.specs.Streams.{plain_course, plain_connections, plain_framed, plain_streams};

use crate::course::{Course, Framed, frame_in, is_data, role_of};
use crate::tally::{Tally, Told};
use bt_base::NoMemory;
use capture::Flow;
use link_talk::Party;
use std::alloc::Global;

/// How many octets the head of a packet has, which states how many it has in all.
const HEAD: usize = 3;

/// How far the multiplexer is, whether it was closed, and the octets into its host that are no whole packet yet.
#[derive(Debug, Drop)]
pub(crate) struct Streams {
    course: Course,
    closed: bool,
    into: Vec<u8>,
}

/// Whether the packet at the front of a stream states fewer octets than its head has, so that none ever stands there.
fn is_stuck(stream: &[u8]) -> bool
    ensures { result ≡ is_stuck stream.now }
{
    stream.len() >= HEAD && 256 * usize::from(stream[1]) + usize::from(stream[2]) < HEAD
}

/// How long the packet is at the front of a stream, if it is whole.
fn packet_size(stream: &[u8]) -> Option<usize>
    ensures { MatchOption result (HasNoPacket stream.now) (λ size. IsPacket (take size stream.now) × (3 ≤ size) × (size ≤ length stream.now)) }
{
    if stream.len() < 3 {
        return None;
    }
    let size = 256 * usize::from(stream[1]) + usize::from(stream[2]);
    if size < 3 || stream.len() < size {
        return None;
    }
    Some(size)
}

/// Hears the packets on a stream of octets. The answer is how long they are.
fn hear_packets(
    alloc: Global,
    tally: &mut Tally,
    found: &mut Vec<Told>,
    most: u16,
    stream: &[u8],
) -> Result<usize, NoMemory>
    ensures rest { IfOk result (λ end. (end ≤ length stream.now) × (drop end stream.now ≡ rest_of stream.now)) }
    ensures tally { OnOk result (plain_tally tally.new ≡ fold tally_after (plain_tally tally.old) (map (put_within most) (obex_packets stream.now))) }
    ensures told { OnOk result (map plain_told found.new.items ≡ map plain_told found.old.items ++ told_from (plain_tally tally.old) (map (put_within most) (obex_packets stream.now))) }
{
    let mut rest = stream;
    'packets: loop {
        match packet_size(rest) {
            None => return Ok(stream.len() - rest.len()),
            Some(size) => {
                tally.hear(alloc, found, most, &rest[..size])?;
                rest = &rest[size..];
            }
        }
    }
}

/// How long the packets are on a stream of octets.
fn packets_end(stream: &[u8]) -> usize
    ensures { (result ≤ length stream.now) × (drop result stream.now ≡ rest_of stream.now) }
{
    let mut rest = stream;
    'packets: loop {
        match packet_size(rest) {
            None => return stream.len() - rest.len(),
            Some(size) => rest = &rest[size..],
        }
    }
}

impl Streams {
    pub(crate) fn new(alloc: Global) -> Streams
        ensures { plain_streams result ≡ no_streams }
    {
        Streams {
            course: Course::new(),
            closed: false,
            into: Vec::new(alloc),
        }
    }

    /// The octets that a frame brings into the host.
    fn add(&mut self, party: &Party, framed: &Framed<'_>) -> Result<(), NoMemory>
        ensures { OnOk result ((self.new.into.items ≡ self.old.into.items ++ octets_heard party.now.dlci (role_of party.now Into) (plain_connections self.old.course.connections) (Some (plain_framed framed.now)))
            × (self.new.course ≡ self.old.course) × (self.new.closed ≡ self.old.closed)) }
    {
        let way = role_of(party, Flow::Into);
        if self.course.connections.carries_on() && is_data(party.dlci, way, framed) {
            self.into.extend_from_slice(framed.frame.octets)?;
        }
        Ok(())
    }

    /// An SDU more, of which no packet is taken yet.
    fn join(&mut self, party: &Party, flow: Flow, sdu: &[u8]) -> Result<(), NoMemory>
        ensures course { OnOk result (plain_course self.new.course ≡ course_by party.now (plain_course self.old.course) (frame_of party.now (plain_streams self.old) (spoken_as flow sdu.now))) }
        ensures closed { OnOk result (self.new.closed ≡ closed_by party.now (plain_course self.old.course) self.old.closed (frame_of party.now (plain_streams self.old) (spoken_as flow sdu.now))) }
        ensures into { OnOk result (self.new.into.items ≡ stream_with party.now Into (plain_streams self.old) (spoken_as flow sdu.now)) }
    {
        if self.closed {
            return Ok(());
        }
        if let Some(framed) = frame_in(role_of(party, flow), sdu) {
            self.add(party, &framed)?;
            self.closed = self.course.is_last(party.dlci, party.role, &framed);
            self.course.hear(party.dlci, party.role, &framed);
        }
        Ok(())
    }

    /// Takes so many octets away from the front. Of a stream on which no packet ever stands it holds no more than a head.
    fn cut(&mut self, end: usize)
        requires { end ≤ length self.old.into.items }
        ensures { (self.new.into.items ≡ short_stream (drop end self.old.into.items)) × (self.new.course ≡ self.old.course) × (self.new.closed ≡ self.old.closed) }
    {
        drop(self.into.drain(..end));
        if is_stuck(&self.into) {
            self.into.truncate(HEAD);
        }
    }

    /// An SDU more, and the packets that are whole with it.
    pub(crate) fn hear(
        &mut self,
        alloc: Global,
        party: &Party,
        tally: &mut Tally,
        found: &mut Vec<Told>,
        flow: Flow,
        sdu: &[u8],
    ) -> Result<(), NoMemory>
        ensures streams { OnOk result (plain_streams self.new ≡ short_streams (streams_after party.now (plain_streams self.old) (spoken_as flow sdu.now))) }
        ensures tally { OnOk result (plain_tally tally.new ≡ fold tally_after (plain_tally tally.old) (puts_of party.now (packets_now party.now OverRfcomm (plain_streams self.old) (spoken_as flow sdu.now)))) }
        ensures told { OnOk result (map plain_told found.new.items ≡ map plain_told found.old.items ++ told_from (plain_tally tally.old) (puts_of party.now (packets_now party.now OverRfcomm (plain_streams self.old) (spoken_as flow sdu.now)))) }
    {
        self.join(party, flow, sdu)?;
        match flow {
            Flow::Into => {
                let end = hear_packets(alloc, tally, found, party.packet, &self.into)?;
                self.cut(end);
            }
            Flow::Out => {
                let end = packets_end(&self.into);
                self.cut(end);
            }
        }
        Ok(())
    }
}
