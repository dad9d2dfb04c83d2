//! Joining segments that come in.

ghost use Rattle.std.specs.Prelude.{◌≡◌, ◌≢◌, ◌≤◌, ◌+◌, ◌++◌, length, vec_capacity, ℕ, None, IfOk, IfSome, IsSome};
ghost use Rattle.ertm_frames.specs.Joining.{joint};
ghost use Rattle.ertm_model.specs.Hearing.{joint_fault};
ghost use Rattle.ertm_machine.specs.Joiners.{plain_segment, Takes};

use crate::piece::{END, START, WHOLE};
use bt_base::NoMemory;
use ertm_model::ErtmReason;
use std::alloc::Global;
use std::marker::Model;

/// A segment that came in.
#[derive(Clone, Copy)]
pub(crate) struct Segment<'a> {
    pub(crate) sar: u8,
    pub(crate) total: u16,
    pub(crate) octets: &'a [u8],
}

/// What a segment brings to its end.
#[derive(Clone, Copy)]
pub(crate) enum Taken {
    Nothing,
    /// An SDU whose octets are those of the segment.
    Lent,
    /// An SDU whose octets the joiner holds.
    Joined,
}

/// Joins segments to SDUs. A clause sees for how many octets there is room, the SDU that has begun,
/// and the octets that are held: those of that SDU, or else of the last one that was joined.
#[derive(Drop)]
pub(crate) struct Joiner {
    room: u16,
    /// The length of the SDU that has begun.
    begun: Option<u16>,
    octets: Vec<u8>,
}

impl Model for Joiner {
    ghost use Rattle.ertm_machine.specs.Values.{JoinerValue};

    ghost Value = { JoinerValue };

    ghost use Rattle.ertm_machine.specs.Joiners.{joiner_value, IsJoiner};

    ghost view = { joiner_value };

    ghost invariant = { IsJoiner };
}

/// Puts octets behind the others. The room was reserved.
fn append(octets: &mut Vec<u8>, more: &[u8])
    requires { length octets.old.items + length more.now ≤ vec_capacity octets.old }
    ensures items { octets.new.items ≡ octets.old.items ++ more.now }
    ensures capacity { vec_capacity octets.old ≤ vec_capacity octets.new }
{
    let _room_was_reserved = octets.extend_from_slice(more);
}

/// Why a segment is refused where no SDU has begun: `BadSegment` where it begins none, `TooLongSdu`
/// where it is an SDU of more than `mtu` octets, or states one.
fn first_fault(mtu: u16, segment: &Segment<'_>) -> Option<ErtmReason>
    ensures { result ≡ joint_fault (joint None (plain_segment segment.now)) mtu (plain_segment segment.now) }
{
    match segment.sar {
        WHOLE if usize::from(mtu) < segment.octets.len() => Some(ErtmReason::TooLongSdu),
        WHOLE => None,
        START if usize::from(segment.total) < segment.octets.len() => Some(ErtmReason::BadSegment),
        START if mtu < segment.total => Some(ErtmReason::TooLongSdu),
        START => None,
        _ => Some(ErtmReason::BadSegment),
    }
}

impl Joiner {
    ghost use Rattle.ertm_machine.specs.Values.{new_joiner};

    /// A joiner with room for SDUs of so many octets, which it reserves; `NoMemory` where it cannot
    /// be had.
    pub(crate) fn new(alloc: Global, room: u16) -> Result<Joiner, NoMemory>
        ensures { IfOk result (λ joiner. joiner ≡ new_joiner room) }
    {
        let octets = Vec::with_capacity(alloc, usize::from(room))?;
        Ok(Joiner {
            room,
            begun: None,
            octets,
        })
    }

    /// Makes it a joiner with no SDU. It takes no memory.
    pub(crate) fn reset(&mut self)
        ensures { self.new ≡ new_joiner self.old.room }
    {
        self.begun = None;
        self.octets.clear();
    }

    /// The octets that are held.
    pub(crate) fn octets(&self) -> &[u8]
        ensures { result.now ≡ self.now.octets }
    {
        &self.octets
    }

    /// Takes the next segment: `BadSegment` where it has no place behind those before it, `TooLongSdu`
    /// where it is an SDU of more than `mtu` octets, or states one. Then the joiner is as before.
    pub(crate) fn take(&mut self, mtu: u16, segment: &Segment<'_>) -> Result<Taken, ErtmReason>
        requires room { mtu ≤ self.old.room }
        requires stated { segment.now.sar ≢ 1 → segment.now.total ≡ 0 }
        ensures { Takes self.old mtu (plain_segment segment.now) result self.new }
    {
        match self.begun {
            None => self.begin(mtu, segment),
            Some(total) => self.go_on(total, segment),
        }
    }

    /// Why `take` would refuse the next segment, where it would.
    pub(crate) fn fault(&self, mtu: u16, segment: &Segment<'_>) -> Option<ErtmReason>
        requires { segment.now.sar ≢ 1 → segment.now.total ≡ 0 }
        ensures { result ≡ joint_fault (joint self.now.begun (plain_segment segment.now)) mtu (plain_segment segment.now) }
    {
        match self.begun {
            None => first_fault(mtu, segment),
            Some(total) => self.next_fault(total, segment),
        }
    }

    /// Why a segment has no place behind those of an SDU of so many octets, where it has none.
    fn next_fault(&self, total: u16, segment: &Segment<'_>) -> Option<ErtmReason>
        requires some { IfSome self.now.begun (λ begun. begun.total ≡ total) × IsSome self.now.begun }
        requires stated { segment.now.sar ≢ 1 → segment.now.total ≡ 0 }
        ensures { (mtu : ℕ) → result ≡ joint_fault (joint self.now.begun (plain_segment segment.now)) mtu (plain_segment segment.now) }
    {
        let count = self.octets.len() + segment.octets.len();
        match segment.sar {
            WHOLE | START => Some(ErtmReason::BadSegment),
            END if count != usize::from(total) => Some(ErtmReason::BadSegment),
            END => None,
            _ if usize::from(total) < count => Some(ErtmReason::BadSegment),
            _ => None,
        }
    }

    /// Takes a segment where no SDU has begun.
    fn begin(&mut self, mtu: u16, segment: &Segment<'_>) -> Result<Taken, ErtmReason>
        requires room { mtu ≤ self.old.room }
        requires none { self.old.begun ≡ None }
        ensures { Takes self.old mtu (plain_segment segment.now) result self.new }
    {
        match segment.sar {
            WHOLE if usize::from(mtu) < segment.octets.len() => Err(ErtmReason::TooLongSdu),
            WHOLE => Ok(Taken::Lent),
            START if usize::from(segment.total) < segment.octets.len() => {
                Err(ErtmReason::BadSegment)
            }
            START if mtu < segment.total => Err(ErtmReason::TooLongSdu),
            START => {
                self.octets.clear();
                append(&mut self.octets, segment.octets);
                self.begun = Some(segment.total);
                Ok(Taken::Nothing)
            }
            _ => Err(ErtmReason::BadSegment),
        }
    }

    /// Takes a segment where an SDU of so many octets has begun.
    fn go_on(&mut self, total: u16, segment: &Segment<'_>) -> Result<Taken, ErtmReason>
        requires some { IfSome self.old.begun (λ begun. begun.total ≡ total) × IsSome self.old.begun }
        requires stated { segment.now.sar ≢ 1 → segment.now.total ≡ 0 }
        ensures { (mtu : ℕ) → Takes self.old mtu (plain_segment segment.now) result self.new }
    {
        let count = self.octets.len() + segment.octets.len();
        match segment.sar {
            WHOLE | START => Err(ErtmReason::BadSegment),
            END if count != usize::from(total) => Err(ErtmReason::BadSegment),
            END => {
                append(&mut self.octets, segment.octets);
                self.begun = None;
                Ok(Taken::Joined)
            }
            _ if usize::from(total) < count => Err(ErtmReason::BadSegment),
            _ => {
                append(&mut self.octets, segment.octets);
                Ok(Taken::Nothing)
            }
        }
    }
}
