//! Frames in a ring of octets.

ghost use Rattle.std.specs.Prelude.{◌≡◌, ◌≢◌, ◌+◌, ◌≤◌, ◌<◌, ◌^◌, ◌++◌, ◌∷◌, [], length, take, drop, bit_xor, slice_set, slice_get, slice_index, IfOk, OnOk, OnErr};
ghost use Rattle.std.specs.Option.{option_map};
ghost use Rattle.byteorder.specs.Endian.{little_number};
ghost use Rattle.radio_air.specs.Rings.{total, with_first, octets_in, octets_reserved, frames_reserved};
ghost use Rattle.radio_model.specs.Radio.{first_or_nothing};

use crate::ring::{append, change, copy_from, make_room, number_at, part};
use bt_base::NoMemory;
use circular_buffer::HeapCircularBuffer;
use std::alloc::Global;
use std::marker::Model;

/// For how many octets there is room at first: 1,048,576 that wait, and the longest frame.
const OCTETS: usize = 1_114_115;

/// For how many frames there is room at first.
const FRAMES: usize = 256;

/// Frames, one behind the other, and behind them the octets of one that was begun. A clause sees the
/// octets of each.
#[derive(Drop)]
pub(crate) struct Frames {
    lengths: HeapCircularBuffer<usize>,
    octets: HeapCircularBuffer<u8>,
    /// How many octets the whole frames have together.
    whole: usize,
}

impl Model for Frames {
    ghost use Rattle.radio_air.specs.Rings.{Kept, kept_of, IsRing};

    ghost Value = { Kept };

    ghost view = { λ frames. kept_of frames.whole frames.lengths.items frames.octets.items };

    ghost invariant = { λ frames. IsRing frames.whole frames.lengths.items frames.octets.items frames.lengths.capacity frames.octets.capacity };
}

/// Takes the first lengths away, of which it needs as many, and answers their sum.
fn take_lengths(lengths: &mut HeapCircularBuffer<usize>, count: usize) -> usize
    requires enough { count ≤ length lengths.old.items }
    requires fits { total lengths.old.items < 2 ^ 63 }
    ensures sum { result ≡ total (take count lengths.old.items) }
    ensures left { lengths.new.items ≡ drop count lengths.old.items }
    ensures room { lengths.new.capacity ≡ lengths.old.capacity }
{
    let mut octets = 0;
    for _ in 0..count {
        let Some(length) = lengths.pop_front() else {
            unreachable!()
        };
        octets += length;
    }
    octets
}

/// How many octets the first `count` frames have together, of which it needs as many.
fn octets_of(lengths: &HeapCircularBuffer<usize>, count: usize) -> usize
    requires enough { count ≤ length lengths.now.items }
    requires fits { total lengths.now.items < 2 ^ 64 }
    ensures { result ≡ total (take count lengths.now.items) }
{
    let mut octets = 0;
    for i in 0..count {
        let Some(length) = lengths.get(i) else {
            unreachable!()
        };
        octets += *length;
    }
    octets
}

impl Frames {
    /// No frame, with the room that is reserved. `NoMemory` where that cannot be had.
    pub(crate) fn new(alloc: Global) -> Result<Frames, NoMemory>
        ensures { IfOk result (λ frames. frames ≡ record { frames = []; begun = [] }) }
    {
        Ok(Frames {
            lengths: HeapCircularBuffer::with_capacity(alloc, FRAMES)?,
            octets: HeapCircularBuffer::with_capacity(alloc, OCTETS)?,
            whole: 0,
        })
    }

    /// How many frames are whole.
    pub(crate) fn len(&self) -> usize
        ensures { result ≡ length self.now.frames }
    {
        self.lengths.len()
    }

    /// How many octets of a frame were begun.
    pub(crate) fn begun(&self) -> usize
        ensures length { result ≡ length self.now.begun }
        ensures small { result < 2 ^ 63 }
    {
        self.octets.len() - self.whole
    }

    /// The number in the first two octets of what was begun.
    pub(crate) fn begun_number(&self) -> u16
        requires { 2 ≤ length self.now.begun }
        ensures { result ≡ little_number 2 self.now.begun }
    {
        number_at(&self.octets, self.whole)
    }

    /// Goes on with the frame that was begun. `NoMemory` where there is no room for it.
    pub(crate) fn go_on(&mut self, octets: &[u8]) -> Result<(), NoMemory>
        requires { length octets.now < 2 ^ 32 }
        ensures ok { OnOk result (self.new ≡ record { frames = self.old.frames; begun = self.old.begun ++ octets.now }) }
        ensures unchanged { OnErr result (self.new ≡ self.old) }
        ensures full { OnErr result (octets_reserved < octets_in self.old + length octets.now) }
    {
        append(&mut self.octets, octets)?;
        Ok(())
    }

    /// What was begun is a frame. `NoMemory` where there is no room for it.
    pub(crate) fn complete(&mut self) -> Result<(), NoMemory>
        ensures ok { OnOk result (self.new ≡ record { frames = self.old.frames ++ self.old.begun ∷ []; begun = [] }) }
        ensures unchanged { OnErr result (self.new ≡ self.old) }
        ensures full { OnErr result (frames_reserved ≤ length self.old.frames) }
    {
        make_room(&mut self.lengths, 1)?;
        let length = self.octets.len() - self.whole;
        let _none_leaves = self.lengths.push_back(length);
        self.whole = self.octets.len();
        Ok(())
    }

    /// Forgets what was begun.
    pub(crate) fn forget(&mut self)
        ensures { self.new ≡ record { frames = self.old.frames; begun = [] } }
    {
        self.octets.truncate_back(self.whole);
    }

    /// The first frames leave, of which it needs as many.
    pub(crate) fn leave(&mut self, count: usize)
        requires { count ≤ length self.old.frames }
        ensures { self.new ≡ record { frames = drop count self.old.frames; begun = self.old.begun } }
    {
        let octets = self.octets.len();
        let gone = take_lengths(&mut self.lengths, count);
        self.octets.truncate_front(octets - gone);
        self.whole -= gone;
    }

    /// How many octets the first frame has, none where there is none.
    pub(crate) fn first_len(&self) -> usize
        ensures { result ≡ length (first_or_nothing self.now.frames) }
    {
        match self.lengths.front() {
            Some(length) => *length,
            None => 0,
        }
    }

    /// The number in two octets of the first frame.
    pub(crate) fn first_number(&self, at: usize) -> u16
        requires { at + 2 ≤ length (first_or_nothing self.now.frames) }
        ensures { result ≡ little_number 2 (drop at (first_or_nothing self.now.frames)) }
    {
        number_at(&self.octets, at)
    }

    /// Copies octets of the first frame from the place `from` on, as many as `into` has.
    pub(crate) fn copy_first(&self, from: usize, into: &mut [u8])
        requires { from + length into.old ≤ length (first_or_nothing self.now.frames) }
        ensures { into.new ≡ take (length into.old) (drop from (first_or_nothing self.now.frames)) }
    {
        copy_from(&self.octets, from, into);
    }

    /// The frame behind the first `count`, in two parts that follow one another. `None` where there is
    /// none.
    pub(crate) fn behind(&self, count: usize) -> Option<(&[u8], &[u8])>
        ensures { option_map (λ parts. parts.0.now ++ parts.1.now) result ≡ slice_get self.now.frames count }
    {
        match self.lengths.get(count) {
            Some(length) => {
                let _no_sum_is_more = self.octets.len();
                let from = octets_of(&self.lengths, count);
                Some(part(&self.octets, from, *length))
            }
            None => None,
        }
    }

    /// Combines an octet of the first frame by exclusive or with a mask.
    pub(crate) fn change_first(&mut self, at: usize, mask: u8)
        requires { at < length (first_or_nothing self.old.frames) }
        ensures { self.new ≡ record { frames = with_first (slice_set (first_or_nothing self.old.frames) at (bit_xor (slice_index (first_or_nothing self.old.frames) at) mask)) self.old.frames; begun = self.old.begun } }
    {
        change(&mut self.octets, at, mask);
    }
}
