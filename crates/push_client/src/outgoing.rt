//! The octets of a request that are to be sent.

ghost use Rattle.std.specs.Prelude.{◌≡◌, ◌≤◌, [], true, false, length, drop, IfOk};
ghost use Rattle.bt_base.specs.Counts.{HasCause};
ghost use Rattle.bt_base.specs.Octets.{IsOctets};
ghost use Rattle.obex_session.specs.NextPut.{is_waiting};
ghost use Rattle.obex_session.specs.PutPackets.{Reaches, units_in};
ghost use Rattle.obex_session.specs.Views.{asks_connect, asks_abort, asks_disconnect};
ghost use Rattle.push_model.specs.Steps.{connect_octets, abort_octets, disconnect_octets};
ghost use Rattle.push_model.specs.rfcomm_frames.specs.FrameReading.{is_empty};
ghost use Rattle.sdp_client.specs.Asking.{is_due, after_request, request_octets};
ghost use Rattle.push_client.specs.Putting.{PutsOr};

use bt_base::{NoMemory, PortFault, Shelf};
use obex_session::{ClientSession, PutNext};
use sdp_client::Query;
use std::alloc::Global;
use std::marker::Model;

/// The room that a session needs for a request, in octets.
const ROOM: usize = 32_767;

/// A slice has octets.
pub(crate) fn are_octets(octets: &[u8])
    ensures { IsOctets octets.now }
{
    let _ = octets;
}

/// The octets of a request that were not taken yet, in memory that is had at the start. A clause sees them.
#[derive(Drop)]
pub(crate) struct Outgoing {
    room: Vec<u8>,
    start: usize,
    end: usize,
}

impl Model for Outgoing {
    ghost use Rattle.std.specs.Prelude.{◌≡◌, ◌≤◌, ℕ, List, take, drop, vec_len};

    ghost Value = { List ℕ };

    ghost view = { λ outgoing. drop outgoing.start (take outgoing.end outgoing.room.items) };

    ghost invariant = { λ outgoing. (vec_len outgoing.room ≡ 32767) × (outgoing.start ≤ outgoing.end) × (outgoing.end ≤ 32767) };
}

impl Outgoing {
    /// Room for any request, and none in it. `NoMemory` where it cannot be had.
    pub(crate) fn new(alloc: Global) -> Result<Outgoing, NoMemory>
        ensures { IfOk result (λ outgoing. outgoing ≡ []) }
    {
        let mut room = Vec::with_capacity(alloc, ROOM)?;
        room.resize(ROOM, 0)?;
        Ok(Outgoing {
            room,
            start: 0,
            end: 0,
        })
    }

    /// The octets.
    pub(crate) fn octets(&self) -> &[u8]
        ensures { result.now ≡ self.now }
    {
        &self.room[self.start..self.end]
    }

    /// Whether there are none.
    pub(crate) fn is_empty(&self) -> bool
        ensures { result ≡ is_empty self.now }
    {
        self.start == self.end
    }

    /// There are none any more.
    pub(crate) fn clear(&mut self)
        ensures { self.new ≡ [] }
    {
        self.start = 0;
        self.end = 0;
    }

    /// So many octets were taken from the front.
    pub(crate) fn cut(&mut self, count: usize)
        requires { count ≤ length self.old }
        ensures { self.new ≡ drop count self.old }
    {
        self.start += count;
    }

    /// Asks for the next part of the answer of a query, where that is due.
    pub(crate) fn search(&mut self, query: &mut Query)
        requires { is_due query.old ≡ true }
        ensures query { query.new ≡ after_request query.old }
        ensures octets { self.new ≡ request_octets query.old }
    {
        let Some(count) = query.next_request(&mut self.room) else {
            unreachable!()
        };
        self.start = 0;
        self.end = count;
    }

    /// CONNECT.
    pub(crate) fn connect(&mut self, session: &mut ClientSession)
        ensures session { session.new ≡ asks_connect session.old }
        ensures octets { self.new ≡ connect_octets session.old }
    {
        self.end = session.connect(&mut self.room);
        self.start = 0;
    }

    /// ABORT.
    pub(crate) fn abort(&mut self, session: &mut ClientSession)
        ensures session { session.new ≡ asks_abort session.old }
        ensures octets { self.new ≡ abort_octets }
    {
        self.end = session.abort(&mut self.room);
        self.start = 0;
    }

    /// DISCONNECT.
    pub(crate) fn disconnect(&mut self, session: &mut ClientSession)
        ensures session { session.new ≡ asks_disconnect session.old }
        ensures octets { self.new ≡ disconnect_octets }
    {
        self.end = session.disconnect(&mut self.room);
        self.start = 0;
    }

    /// The next PUT of an object. Where the shelf does not give its part, nothing is put.
    ///
    /// It needs a session that waits for no response, a name of at most 100 UTF-16 units, and a limit of at least 255 octets.
    pub(crate) fn put<F: Shelf>(
        &mut self,
        session: &mut ClientSession,
        name: &str,
        size: u32,
        shelf: &mut F,
        limit: u16,
    ) -> Result<(), PortFault>
        requires free { is_waiting session.old.awaited ≡ false }
        requires few { length (units_in name.now) ≤ 100 }
        requires least { 255 ≤ limit }
        ensures puts { PutsOr session.old session.new name.now size limit (F.content shelf.old) self.new result }
        ensures content { F.content shelf.new ≡ F.content shelf.old }
        ensures cause { HasCause (F.faults shelf.old) (F.faults shelf.new) (F.shortages shelf.old) (F.shortages shelf.new) result }
        ensures absence { Reaches size name.now (F.content shelf.old) → F.absences shelf.new ≡ F.absences shelf.old }
    {
        self.start = 0;
        self.end = 0;
        match session.put_next(name, size, shelf, limit, &mut self.room) {
            PutNext::Packet(count, _) => {
                self.end = count;
                Ok(())
            }
            PutNext::Wait => unreachable!(),
            PutNext::ShelfFault => Err(PortFault::Failed),
            PutNext::NoMemory => Err(PortFault::NoMemory),
        }
    }
}
