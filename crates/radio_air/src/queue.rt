//! One direction of the air.

ghost use Rattle.std.specs.Prelude.{◌≡◌, ◌≢◌, ◌+◌, ◌*◌, ◌≤◌, ◌<◌, ◌==◌, ◌^◌, ◌++◌, ◌∷◌, [], true, false, length, take, drop, map, IfOk, OnOk, OnErr, nat_lt, slice_get};
ghost use Rattle.std.specs.Option.{option_map};
ghost use Rattle.h4_framing.specs.Packets.{Acl};
ghost use Rattle.hci_packets.specs.AclWords.{flag_of};
ghost use Rattle.acl_fragments.specs.Pieces.{pdu_length, starts, joined};
ghost use Rattle.acl_fragments.specs.Answers.{next_answer};
ghost use Rattle.radio_model.specs.Radio.{frame_limit, first_channel};
ghost use Rattle.radio_model.specs.Controllers.{is_empty};
ghost use Rattle.radio_model.specs.Radio.{first_or_nothing};
ghost use Rattle.radio_air.specs.Rings.{with_first};
ghost use Rattle.radio_model.specs.Fates.{changed, first_can_meet};
ghost use Rattle.radio_model.specs.Queues.{IsSize, new_queue, begun_with, taking_part, taking, is_crowded, meeting, IsHandedOver, piece_first, longest_packet, HasPlaces, IsWritten};
ghost use Rattle.radio_air.specs.Plain.{IsStep, IsShortStep, stepped};
ghost use Rattle.radio_air.specs.Keeping.{boundary_at};

use crate::frames::Frames;
use crate::step::{Step, start_step};
use bt_base::{Handle, NoMemory};
use hci_packets::Boundary;
use radio_model::Fate;
use std::alloc::Global;
use std::marker::Model;

/// The indicator of an ACL packet (Core 5.1, Volume 4 Part A, 2).
const ACL: u8 = 2;

/// A frame is repeated only while fewer frames than these wait the other way.
const MOST_OTHERS: usize = 128;

/// One direction of the air. A clause sees the frames that wait, the first one first, the octets of
/// the frame that its host has begun, and the pieces that are handed over to the other host.
///
/// A frame that is handed over lies where it waited until its last piece is gone.
#[derive(Drop)]
pub(crate) struct AirQueue {
    /// How many octets a piece has at most.
    size: u16,
    frames: Frames,
    /// How many octets of the first frame are handed over in all; none where it is 0.
    handing: usize,
    /// How many of these are gone.
    gone: usize,
    /// How many frames wait no more, and leave once the first one is handed over.
    leaving: usize,
}

impl Model for AirQueue {
    ghost use Rattle.radio_model.specs.Queues.{Queue};
    ghost use Rattle.radio_air.specs.Keeping.{queue_of, IsQueue};

    ghost Value = { Queue };

    ghost view = { λ queue. queue_of queue.size queue.frames queue.handing queue.gone queue.leaving };

    ghost invariant = { λ queue. IsQueue queue.size queue.frames queue.handing queue.gone queue.leaving };
}

/// The packet boundary flag of the piece that follows so many octets of a frame (Core 5.1, Volume 2
/// Part E, 5.4.2).
fn flag_at(gone: usize) -> u16
    ensures { result ≡ flag_of (boundary_at gone) }
{
    if gone == 0 { 2 } else { 1 }
}

/// Writes the packet of a piece of the first frame, of `size` octets behind those that are gone, at
/// the front of `into`, and answers how many octets the packet has.
fn put_piece(frames: &Frames, gone: usize, size: usize, handle: Handle, into: &mut [u8]) -> usize
    requires few { size ≤ 1021 }
    requires within { gone + size ≤ length (first_or_nothing frames.now.frames) }
    requires room { longest_packet ≤ length into.old }
    ensures written { IsWritten (Acl (handle + 0x1000 * flag_of (boundary_at gone)) (take size (drop gone (first_or_nothing frames.now.frames)))) result into.old into.new }
    ensures word { handle + 0x1000 * flag_of (boundary_at gone) < 2 ^ 16 }
{
    let [low, high] = (handle.get() + 0x1000 * flag_at(gone)).to_le_bytes();
    let [short, long] = (size as u16).to_le_bytes();
    into[..5].copy_from_slice(&[ACL, low, high, short, long]);
    frames.copy_first(gone, &mut into[5..5 + size]);
    5 + size
}

impl AirQueue {
    /// Nothing waits, and nothing is handed over. `NoMemory` where the room that is reserved cannot
    /// be had.
    pub(crate) fn new(alloc: Global, size: u16) -> Result<AirQueue, NoMemory>
        requires { IsSize size }
        ensures { IfOk result (λ queue. queue ≡ new_queue size) }
    {
        Ok(AirQueue {
            size,
            frames: Frames::new(alloc)?,
            handing: 0,
            gone: 0,
            leaving: 0,
        })
    }

    /// How many frames wait.
    pub(crate) fn len(&self) -> usize
        ensures { result ≡ length self.now.waiting }
    {
        self.frames.len() - self.leaving
    }

    /// Whether nothing is handed over.
    pub(crate) fn is_over(&self) -> bool
        ensures { result ≡ is_empty self.now.coming }
    {
        self.handing == 0
    }

    /// Forgets the frame that was begun.
    pub(crate) fn forget(&mut self)
        ensures { self.new ≡ record self.old { begun = [] } }
    {
        self.frames.forget();
    }

    /// No frame waits any more. One that is handed over goes on to come.
    pub(crate) fn clear(&mut self)
        ensures { self.new ≡ record self.old { waiting = [] } }
    {
        let all = self.frames.len();
        if self.handing == 0 {
            self.frames.leave(all);
        } else {
            self.leaving = all;
        }
    }

    /// A piece of its host comes. The frame that it completes waits behind the others while its link
    /// flies, and is dropped otherwise. While nothing is handed over, `NoMemory` comes only where
    /// more than 256 frames would wait, or more than 1,048,576 octets of them.
    pub(crate) fn take(
        &mut self,
        flies: bool,
        boundary: Boundary,
        octets: &[u8],
    ) -> Result<(), NoMemory>
        ensures ok { OnOk result (self.new ≡ taking flies (record { boundary = boundary; octets = octets.now }) self.old) }
        ensures size { self.new.size ≡ self.old.size }
        ensures crowded { OnErr result (self.old.coming ≡ [] → is_crowded (taking flies (record { boundary = boundary; octets = octets.now }) self.old).waiting ≡ true) }
    {
        match boundary {
            Boundary::First | Boundary::FirstFromController => self.start(flies, octets),
            Boundary::Continuing => self.go_on(flies, octets),
        }
    }

    /// A frame begins: what was begun before is dropped.
    fn start(&mut self, flies: bool, octets: &[u8]) -> Result<(), NoMemory>
        ensures ok { OnOk result (self.new ≡ taking_part flies true octets.now self.old) }
        ensures size { self.new.size ≡ self.old.size }
        ensures crowded { OnErr result (self.old.coming ≡ [] → is_crowded (taking_part flies true octets.now self.old).waiting ≡ true) }
    {
        self.frames.forget();
        self.step(start_step(octets), flies, octets)
    }

    /// The frame that was begun goes on.
    fn go_on(&mut self, flies: bool, octets: &[u8]) -> Result<(), NoMemory>
        ensures ok { OnOk result (self.new ≡ taking_part flies false octets.now self.old) }
        ensures size { self.new.size ≡ self.old.size }
        ensures crowded { OnErr result (self.old.coming ≡ [] → is_crowded (taking_part flies false octets.now self.old).waiting ≡ true) }
    {
        let step = self.next_step(octets);
        self.step(step, flies, octets)
    }

    /// What a piece wants that goes on with the frame that was begun.
    fn next_step(&self, octets: &[u8]) -> Step
        ensures { IsStep result (self.now.begun ++ octets.now) (next_answer self.now.begun octets.now) }
    {
        let begun = self.frames.begun();
        if begun == 0 {
            return Step::Drop;
        }
        let whole = 4 + usize::from(self.frames.begun_number());
        if octets.len() > whole {
            return Step::Drop;
        }
        let length = begun + octets.len();
        if whole < length {
            Step::Drop
        } else if whole == length {
            Step::Whole
        } else {
            Step::More
        }
    }

    /// Does what a piece wants.
    fn step(&mut self, step: Step, flies: bool, octets: &[u8]) -> Result<(), NoMemory>
        requires short { IsShortStep step (self.old.begun ++ octets.now) }
        ensures ok { OnOk result (self.new ≡ stepped step flies octets.now self.old) }
        ensures size { self.new.size ≡ self.old.size }
        ensures crowded { OnErr result (self.old.coming ≡ [] → is_crowded (stepped step flies octets.now self.old).waiting ≡ true) }
    {
        match step {
            Step::Whole if flies => {
                self.frames.go_on(octets)?;
                self.frames.complete()?;
            }
            Step::More => self.frames.go_on(octets)?,
            Step::Whole | Step::Drop => self.frames.forget(),
        }
        Ok(())
    }

    /// How many octets the first frame that waits has, none where none waits. It needs that nothing
    /// is handed over.
    pub(crate) fn first_len(&self) -> usize
        requires { self.now.coming ≡ [] }
        ensures { result ≡ length (first_or_nothing self.now.waiting) }
    {
        self.frames.first_len()
    }

    /// The first frame that waits, in two parts that follow one another. `None` where none waits.
    pub(crate) fn front(&self) -> Option<(&[u8], &[u8])>
        ensures { option_map (λ parts. parts.0.now ++ parts.1.now) result ≡ slice_get self.now.waiting 0 }
    {
        self.frames.behind(self.leaving)
    }

    /// The channel identifier of the first frame that waits, none where none with a header waits
    /// (Core 5.1, Volume 3 Part A, 3.1). It needs that nothing is handed over.
    pub(crate) fn channel(&self) -> Option<u16>
        requires { self.now.coming ≡ [] }
        ensures { result ≡ first_channel self.now.waiting }
    {
        if self.frames.first_len() < 4 {
            return None;
        }
        Some(self.frames.first_number(2))
    }

    /// Whether a frame waits that can meet this fate, while so many wait the other way. It needs that
    /// nothing is handed over.
    pub(crate) fn can_meet(&self, fate: Fate, others: usize) -> bool
        requires { self.now.coming ≡ [] }
        ensures { result ≡ first_can_meet fate self.now.waiting others }
    {
        if self.len() == 0 {
            return false;
        }
        match fate {
            Fate::Delivered | Fate::Lost | Fate::CutOff(_) => true,
            Fate::Repeated => others < MOST_OTHERS,
            Fate::Changed { at, .. } => usize::from(at) + 1 < self.first_len(),
        }
    }

    /// The first frame that waits meets its fate, if there is one. It needs that nothing is handed
    /// over, and that the fate can be met.
    pub(crate) fn meet(&mut self, fate: Fate, checked: bool)
        requires still { self.old.coming ≡ [] }
        requires fits { HasPlaces fate (first_or_nothing self.old.waiting) }
        ensures { self.new ≡ meeting fate checked self.old }
    {
        if self.len() == 0 {
            return;
        }
        let octets = self.first_len();
        match fate {
            Fate::Delivered => self.begin(octets, 1),
            Fate::Lost => self.begin(0, 1),
            Fate::Repeated => self.begin(octets, 0),
            Fate::CutOff(pieces) => {
                let most = usize::from(pieces) * usize::from(self.size);
                self.begin(octets.min(most), 1);
            }
            Fate::Changed { at, mask } => {
                if checked {
                    self.change(at, mask);
                    self.begin(octets, 1);
                } else {
                    self.begin(0, 1);
                }
            }
        }
    }

    /// So many octets of the first frame are handed over, and then so many frames leave.
    fn begin(&mut self, handing: usize, leaving: usize)
        requires still { self.old.coming ≡ [] }
        requires octets { handing ≤ length (first_or_nothing self.old.waiting) }
        requires frames { leaving ≤ length self.old.waiting }
        ensures { self.new ≡ begun_with handing leaving self.old }
    {
        if handing == 0 {
            self.frames.leave(leaving);
        } else {
            self.handing = handing;
            self.leaving = leaving;
        }
    }

    /// Two octets of the first frame are combined by exclusive or with the high and the low octet of
    /// a mask.
    fn change(&mut self, at: u16, mask: u16)
        requires still { self.old.coming ≡ [] }
        requires within { at + 1 < length (first_or_nothing self.old.waiting) }
        ensures { self.new ≡ record self.old { waiting = with_first (changed at mask (first_or_nothing self.old.waiting)) self.old.waiting } }
    {
        let at = usize::from(at);
        self.frames.change_first(at, (mask / 256) as u8);
        self.frames.change_first(at + 1, (mask % 256) as u8);
    }

    /// The next piece is handed over on the link of that handle: its packet is written at the front
    /// of `into`. Answers how many octets it has. The rest of `into` stays as it is. `None` where
    /// nothing is handed over.
    ///
    /// It needs room for 1,026 octets, which the longest packet has.
    pub(crate) fn hand(&mut self, handle: Handle, into: &mut [u8]) -> Option<usize>
        requires room { longest_packet ≤ length into.old }
        ensures handed { IsHandedOver (piece_first handle self.old.coming) result into.old into.new }
        ensures queue { self.new ≡ record self.old { coming = drop 1 self.old.coming } }
    {
        let left = self.handing - self.gone;
        if left == 0 {
            return None;
        }
        let length = left.min(usize::from(self.size));
        let count = put_piece(&self.frames, self.gone, length, handle, into);
        self.gone += length;
        if self.gone == self.handing {
            self.frames.leave(self.leaving);
            self.handing = 0;
            self.gone = 0;
            self.leaving = 0;
        }
        Some(count)
    }
}
