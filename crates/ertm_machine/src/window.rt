//! The I-frames that were given and are not acknowledged, and the SDU that waits behind them.

ghost use Rattle.std.specs.Prelude.{◌≡◌, ◌+◌, ◌-◌, ◌*◌, ◌≤◌, ◌<◌, ◌^◌, ◌↔◌, ℕ, List, [], ◌∷◌, ◌++◌, length, take, drop, slice_get, slice_set, IfOk, IfSome, IfNone, false, nat_le, nat_lt, ◌||◌, ◌&&◌};
ghost use Rattle.std.specs.Option.{option_map};
ghost use Rattle.ertm_frames.specs.Frames.{IsInformation};
ghost use Rattle.std.specs.List.{sum_by, list_any};
ghost use Rattle.circular_buffer.specs.Buffer.{buffer};
ghost use Rattle.ertm_model.specs.Value.{Kept};
ghost use Rattle.ertm_model.specs.Hearing.{is_spent};
ghost use Rattle.ertm_model.specs.Submitting.{cut, is_some_fresh};
ghost use Rattle.ertm_machine.specs.Windows.{size_of, waiting_segments, IsWaiting, Cuts};
ghost use Rattle.ertm_machine.specs.Pieces.{octets_of, segment_of_piece};

use crate::piece::{CONTINUATION, END, Piece, START, WHOLE};
use bt_base::NoMemory;
use circular_buffer::HeapCircularBuffer;
use l2cap_config::Agreed;
use std::alloc::Global;
use std::marker::Model;

/// A segment in the window. Its octets stand in the ring behind those of the heads before it.
#[derive(Clone, Copy)]
struct Head {
    len: u16,
    sar: u8,
    /// How many octets the SDU has, in its start, and else 0.
    total: u16,
    /// How often it was given.
    given: u8,
}

/// What waits behind the window.
#[derive(Clone, Copy)]
enum Waiting {
    Nothing,
    /// An SDU of which nothing was given.
    Uncut,
    /// What is left of an SDU whose start was given.
    Begun,
}

/// The send window. Each SDU stands once in a ring of octets, and the segments that were given have
/// their heads in a second ring.
#[derive(Drop)]
pub(crate) struct Window {
    /// What the rings were reserved for.
    reserved: Agreed,
    agreed: Agreed,
    octets: HeapCircularBuffer<u8>,
    heads: HeapCircularBuffer<Head>,
    /// How many heads stand before the one that is given next.
    next: usize,
    /// Where the octets of the segment that is given next begin.
    place: usize,
    waiting: Waiting,
}

impl Model for Window {
    ghost use Rattle.ertm_machine.specs.Values.{WindowValue};

    ghost Value = { WindowValue };

    ghost use Rattle.ertm_machine.specs.Windows.{window_value, IsWindow};

    ghost view = { window_value };

    ghost invariant = { IsWindow };
}

/// Puts a head behind the others.
fn put_head(heads: &mut HeapCircularBuffer<Head>, head: Head)
    requires { length heads.old.items < heads.old.capacity }
    ensures { heads.new ≡ buffer (heads.old.items ++ head ∷ []) heads.old.capacity }
{
    let _none_leaves = heads.push_back(head);
}

/// Puts octets behind the others.
fn put_octets(ring: &mut HeapCircularBuffer<u8>, octets: &[u8])
    requires { length ring.old.items + length octets.now ≤ ring.old.capacity }
    ensures { ring.new ≡ buffer (ring.old.items ++ octets.now) ring.old.capacity }
{
    let _all = ring.fill_from_slice(octets);
}

/// Takes the first heads off, and answers how many octets are theirs.
fn forget(heads: &mut HeapCircularBuffer<Head>, count: usize) -> usize
    requires within { count ≤ length heads.old.items }
    requires fits { size_of (take count heads.old.items) < 2 ^ 64 }
    ensures heads { heads.new ≡ buffer (drop count heads.old.items) heads.old.capacity }
    ensures size { result ≡ size_of (take count heads.old.items) }
{
    let size = heads
        .iter()
        .take(count)
        .map(|head| usize::from(head.len))
        .sum();
    heads.truncate_front(heads.len() - count);
    size
}

/// Takes the first octets off.
fn drop_octets(ring: &mut HeapCircularBuffer<u8>, count: usize)
    requires { count ≤ length ring.old.items }
    ensures { ring.new ≡ buffer (drop count ring.old.items) ring.old.capacity }
{
    ring.truncate_front(ring.len() - count);
}

/// Octets from a place of the ring on, in two parts.
fn parts(ring: &HeapCircularBuffer<u8>, place: usize, len: usize) -> (&[u8], &[u8])
    requires { place + len ≤ length ring.now.items }
    ensures { result.0.now ++ result.1.now ≡ take len (drop place ring.now.items) }
{
    let (front, back) = ring.as_slices();
    let start = place.min(front.len());
    let end = (place + len).min(front.len());
    (&front[start..end], &back[place - start..place + len - end])
}

/// Whether a head from a place on was given as often as may be.
fn has_spent(heads: &HeapCircularBuffer<Head>, from: usize, tries: u8) -> bool
    ensures { result ≡ list_any (λ head. nat_le tries head.given) (drop from heads.now.items) }
{
    heads.iter().skip(from).any(|head| tries <= head.given)
}

/// The head that is cut off the front of what waits, of so many octets, and what waits behind it
/// (Core 5.1, Volume 3 Part A, 7.3).
fn cut_off(waiting: Waiting, count: u16, mps: u16) -> Option<(Head, Waiting)>
    requires mps { 8 ≤ mps }
    requires waiting { IsWaiting waiting count }
    ensures some { IfSome result (Cuts waiting count mps) }
    ensures none { IfNone result (waiting ≡ Waiting.Nothing) }
{
    match waiting {
        Waiting::Nothing => None,
        Waiting::Uncut if count <= mps => Some((Head::new(WHOLE, 0, count), Waiting::Nothing)),
        Waiting::Uncut => Some((Head::new(START, count, mps - 2), Waiting::Begun)),
        Waiting::Begun if count <= mps => Some((Head::new(END, 0, count), Waiting::Nothing)),
        Waiting::Begun => Some((Head::new(CONTINUATION, 0, mps), Waiting::Begun)),
    }
}

impl Head {
    /// The head of a segment that was given once.
    fn new(sar: u8, total: u16, len: u16) -> Head
        ensures { result ≡ record { len = len; sar = sar; total = total; given = 1 } }
    {
        Head {
            len,
            sar,
            total,
            given: 1,
        }
    }
}

/// Notes that the segment of a head, which may be given `tries` times, was given once more, and
/// answers how many octets are its own.
fn count_again(heads: &mut HeapCircularBuffer<Head>, at: usize, tries: u8) -> u16
    requires within { at < length heads.old.items }
    requires unspent { IfSome (slice_get heads.old.items at) (λ head. head.given < tries) }
    ensures { IfSome (slice_get heads.old.items at) (λ head.
        (result ≡ head.len) × (heads.new ≡ buffer (slice_set heads.old.items at (record head { given = head.given + 1 })) heads.old.capacity)) }
{
    match heads.get_mut(at) {
        Some(head) => {
            head.given += 1;
            head.len
        }
        None => 0,
    }
}

impl Window {
    ghost use Rattle.ertm_machine.specs.Values.{new_window};
    ghost use Rattle.ertm_machine.specs.Windows.{IsAgreed, IsWithin, Advances};

    /// A window with nothing in it. It reserves the octets of a full window and of one SDU;
    /// `NoMemory` where they cannot be had.
    pub(crate) fn new(alloc: Global, agreed: &Agreed) -> Result<Window, NoMemory>
        requires { IsAgreed agreed.now }
        ensures { IfOk result (λ window. window ≡ new_window agreed.now agreed.now) }
    {
        let places = usize::from(agreed.send_window);
        let room = places * usize::from(agreed.send_mps) + usize::from(agreed.send_mtu);
        let octets = HeapCircularBuffer::with_capacity(alloc, room)?;
        let heads = HeapCircularBuffer::with_capacity(alloc, places)?;
        Ok(Window {
            reserved: *agreed,
            agreed: *agreed,
            octets,
            heads,
            next: 0,
            place: 0,
            waiting: Waiting::Nothing,
        })
    }

    /// Makes it a window with nothing in it, under what is agreed now. It takes no memory.
    pub(crate) fn reset(&mut self, agreed: &Agreed)
        requires agreed { IsAgreed agreed.now }
        requires within { IsWithin self.old.reserved agreed.now }
        ensures { self.new ≡ new_window self.old.reserved agreed.now }
    {
        self.agreed = *agreed;
        self.octets.clear();
        self.heads.clear();
        self.next = 0;
        self.place = 0;
        self.waiting = Waiting::Nothing;
    }

    /// What was agreed.
    pub(crate) fn agreed(&self) -> Agreed
        ensures value { result ≡ self.now.agreed }
        ensures fits { IsAgreed result }
    {
        self.agreed
    }

    /// Whether a segment of an SDU was not given yet.
    pub(crate) fn is_waiting(&self) -> bool
        ensures { result ≡ is_some_fresh self.now.fresh }
    {
        match self.waiting {
            Waiting::Nothing => false,
            Waiting::Uncut | Waiting::Begun => true,
        }
    }

    /// Takes an SDU, which is cut as its segments are given.
    pub(crate) fn take(&mut self, sdu: &[u8])
        requires none { is_some_fresh self.old.fresh ≡ false }
        requires fits { length sdu.now ≤ self.old.agreed.send_mtu }
        ensures { self.new ≡ record self.old { fresh = cut self.old.agreed.send_mps sdu.now } }
    {
        put_octets(&mut self.octets, sdu);
        self.waiting = Waiting::Uncut;
    }

    /// How many segments were given and are not acknowledged.
    pub(crate) fn used(&self) -> u8
        ensures used { result ≡ length self.now.unacked }
        ensures few { result ≤ 63 }
    {
        self.heads.len() as u8
    }

    /// How many of these stand before the one that is given next.
    pub(crate) fn next(&self) -> u8
        ensures next { result ≡ self.now.next }
        ensures within { result ≤ length self.now.unacked }
        ensures few { result ≤ 63 }
    {
        self.next as u8
    }

    /// Whether one of these, the first ones left out, was given as often as may be.
    pub(crate) fn has_spent(&self, from: u8) -> bool
        ensures { result ≡ is_spent self.now.agreed.tries (drop from self.now.unacked) }
    {
        has_spent(&self.heads, usize::from(from), self.agreed.tries)
    }

    /// The first segments are acknowledged.
    pub(crate) fn acknowledge(&mut self, count: u8)
        requires { count ≤ length self.old.unacked }
        ensures { self.new ≡ record self.old { unacked = drop count self.old.unacked; next = self.old.next - count } }
    {
        let count = usize::from(count);
        let size = forget(&mut self.heads, count);
        drop_octets(&mut self.octets, size);
        self.next = self.next.saturating_sub(count);
        self.place = self.place.saturating_sub(size);
    }

    /// All segments that are not acknowledged are to be given again.
    pub(crate) fn rewind(&mut self)
        requires { is_spent self.old.agreed.tries self.old.unacked ≡ false }
        ensures { self.new ≡ record self.old { next = 0 } }
    {
        self.next = 0;
        self.place = 0;
    }

    /// Whether there is a segment that is given next.
    pub(crate) fn has_next(&self) -> bool
        ensures { result ≡ (nat_lt self.now.next (length self.now.unacked) || (nat_lt (length self.now.unacked) self.now.agreed.send_window && is_some_fresh self.now.fresh)) }
    {
        if self.next() < self.used() {
            return true;
        }
        self.used() < self.agreed().send_window && self.is_waiting()
    }

    /// Goes past the segment that is given next, where there is one.
    pub(crate) fn advance(&mut self) -> bool
        ensures { Advances self.old result self.new }
    {
        if self.next < self.heads.len() {
            let len = count_again(&mut self.heads, self.next, self.agreed.tries);
            self.next += 1;
            self.place += usize::from(len);
            return true;
        }
        if self.heads.len() >= usize::from(self.agreed.send_window) {
            return false;
        }
        let count = (self.octets.len() - self.place) as u16;
        let Some((head, behind)) = cut_off(self.waiting, count, self.agreed.send_mps) else {
            return false;
        };
        put_head(&mut self.heads, head);
        self.next += 1;
        self.place += usize::from(head.len);
        self.waiting = behind;
        true
    }

    /// The segment that was given last.
    pub(crate) fn latest(&self) -> Piece<'_>
        requires { 0 < self.now.next }
        ensures segment { option_map (λ kept. kept.segment) (slice_get self.now.unacked (self.now.next - 1)) ≡ Some (segment_of_piece result) }
        ensures size { length (octets_of result) ≤ 1010 }
        ensures fits { (tx req : ℕ) → tx < 64 → req < 64 → IsInformation tx req result.sar result.total (octets_of result) }
    {
        let head = *self.heads.get(self.next - 1).unwrap();
        let len = usize::from(head.len);
        let (front, back) = parts(&self.octets, self.place - len, len);
        Piece::new(head.sar, head.total, front, back)
    }
}
