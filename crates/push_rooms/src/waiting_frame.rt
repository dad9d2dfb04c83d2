//! A frame of the multiplexer that waits to be sent.

ghost use Rattle.std.specs.Prelude.{◌≡◌, [], None, length, IfSome, IfNone, IfOk, is_some};
ghost use Rattle.bt_base.specs.Octets.{IsOctets};
ghost use Rattle.rfcomm_model.specs.Saying.{next, after_next};
ghost use Rattle.push_model.specs.Payloads.{IsShortest};
ghost use Rattle.push_rooms.specs.Frames.{said_frame};

use bt_base::NoMemory;
use rfcomm_mux::Mux;
use std::alloc::Global;
use std::marker::Model;

/// The room that a multiplexer needs for a frame, in octets.
const FRAME_ROOM: usize = 32_767;

/// The octets of a frame that waits; none waits where there are none. A clause sees the frame.
#[derive(Drop)]
pub struct WaitingFrame {
    room: Vec<u8>,
    size: usize,
}

impl Model for WaitingFrame {
    ghost use Rattle.std.specs.Prelude.{◌≡◌, Option, take, vec_len};
    ghost use Rattle.rfcomm_frames.specs.Frames.{PlainFrame};
    ghost use Rattle.push_rooms.specs.Frames.{frame_in, IsWaiting};

    ghost Value = { Option PlainFrame };

    ghost view = { λ waiting. frame_in (take waiting.size waiting.room.items) };

    ghost invariant = { λ waiting. (vec_len waiting.room ≡ 32767) × IsWaiting waiting.size (take waiting.size waiting.room.items) };
}

impl WaitingFrame {
    /// Room for a frame, of which none waits. `NoMemory` where it cannot be had.
    pub fn new(alloc: Global) -> Result<WaitingFrame, NoMemory>
        ensures { IfOk result (λ waiting. waiting ≡ None) }
    {
        let mut room = Vec::with_capacity(alloc, FRAME_ROOM)?;
        room.resize(FRAME_ROOM, 0)?;
        Ok(WaitingFrame { room, size: 0 })
    }

    /// Whether one waits.
    pub fn is_there(&self) -> bool
        ensures { result ≡ is_some self.now }
    {
        self.size != 0
    }

    /// Its octets.
    pub fn octets(&self) -> &[u8]
        ensures some { IfSome self.now (λ frame. IsShortest frame result.now) }
        ensures none { IfNone self.now (result.now ≡ []) }
    {
        &self.room[..self.size]
    }

    /// The next frame of the multiplexer waits, if there is one.
    pub fn say(&mut self, mux: &mut Mux)
        ensures mux { mux.new ≡ after_next mux.old }
        ensures frame { self.new ≡ said_frame (next mux.old) }
    {
        let Some(size) = mux.next_sdu(&mut self.room) else {
            self.size = 0;
            return;
        };
        are_octets(&self.room[..size]);
        self.size = size;
    }

    /// None waits any more.
    pub fn clear(&mut self)
        ensures { self.new ≡ None }
    {
        self.size = 0;
    }
}

/// A slice has octets.
fn are_octets(octets: &[u8])
    ensures { IsOctets octets.now }
{
    let _ = octets;
}
