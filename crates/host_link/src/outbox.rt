//! The PDU that is put out.

ghost use Rattle.std.specs.Prelude.{◌≡◌, ◌≢◌, ◌≤◌, ◌==◌, ◌∷◌, [], drop, take, length, vec_len, IfOk, IfSome, IfNone};
ghost use Rattle.hci_packets.specs.declared.acl.Boundary.TheVariants.{First};
ghost use Rattle.acl_fragments.specs.Cuts.{cut};
ghost use Rattle.host_link.specs.Waiting.{boundary_after, longest_put};

use bt_base::NoMemory;
use hci_packets::Boundary;
use std::alloc::Global;
use std::marker::Model;
use std::mem;

/// The fewest octets that an ACL packet carries (Core 5.1, Volume 2 Part E, 7.4.5).
const LEAST_SIZE: u16 = 27;

/// How many octets the longest PDU has: an SDU of 32,767 octets in a basic frame, and a frame of an enhanced channel has fewer.
const LONGEST_PUT: usize = 32_775;

/// The PDU that is put out, piece by piece. A clause sees how many octets an ACL packet carries at
/// most, and the pieces that are left.
#[derive(Drop)]
pub struct Outbox {
    size: u16,
    /// The PDU stands at its front.
    buffer: Vec<u8>,
    /// How many octets of the PDU are gone.
    gone: usize,
    /// How many octets the PDU has.
    end: usize,
}

impl Model for Outbox {
    ghost use Rattle.std.specs.Prelude.{take};
    ghost use Rattle.host_link.specs.Waiting.{Waiting, waiting_of, IsOutbox};

    ghost Value = { Waiting };

    ghost view = { λ outbox. waiting_of outbox.size outbox.gone (take outbox.end outbox.buffer.items) };

    ghost invariant = { λ outbox. IsOutbox outbox.size outbox.gone outbox.end outbox.buffer.items };
}

/// Where the next piece of a PDU stands, of which so many octets are gone.
fn boundary_after(gone: usize) -> Boundary
    ensures { result ≡ boundary_after gone }
{
    if gone == 0 {
        Boundary::First
    } else {
        Boundary::Continuing
    }
}

/// What is left of the PDU at the front of a buffer, of which so many octets are gone.
fn left_of(buffer: &[u8], gone: usize, end: usize) -> &[u8]
    requires gone { gone ≤ end }
    requires end { end ≤ length buffer.now }
    ensures { result.now ≡ drop gone (take end buffer.now) }
{
    let (pdu, _behind) = buffer.split_at(end);
    let (_gone, left) = pdu.split_at(gone);
    left
}

impl Outbox {
    /// Nothing waits, and 27 octets fit a packet. It reserves memory for the longest PDU; `NoMemory`
    /// where that cannot be had.
    pub fn new(alloc: Global) -> Result<Outbox, NoMemory>
        ensures { IfOk result (λ outbox. outbox ≡ record { size = 27; pieces = [] }) }
    {
        Ok(Outbox {
            size: LEAST_SIZE,
            buffer: vec![in alloc; 0; LONGEST_PUT]?,
            gone: 0,
            end: 0,
        })
    }

    /// Begins anew with packets of that many octets: nothing waits.
    pub fn resize(&mut self, size: u16)
        requires { 1 ≤ size }
        ensures { self.new ≡ record { size = size; pieces = [] } }
    {
        self.clear();
        self.size = size;
    }

    /// Drops all that waits.
    pub fn clear(&mut self)
        ensures { self.new ≡ record { size = self.old.size; pieces = [] } }
    {
        self.gone = 0;
        self.end = 0;
    }

    /// Lets a PDU wait in the place of what was there: its octets are copied.
    pub fn take(&mut self, pdu: &[u8])
        requires { length pdu.now ≤ longest_put }
        ensures { self.new ≡ record { size = self.old.size; pieces = cut self.old.size First pdu.now } }
    {
        let (front, _behind) = self.buffer.split_at_mut(pdu.len());
        front.copy_from_slice(pdu);
        self.gone = 0;
        self.end = pdu.len();
    }

    /// Lets the first `end` octets of a buffer wait in the place of what was there, as a PDU. No octet is copied: the buffers
    /// change places.
    pub fn exchange(&mut self, buffer: &mut Vec<u8>, end: usize)
        requires whole { vec_len buffer.old ≡ longest_put }
        requires end { end ≤ longest_put }
        ensures waits { self.new ≡ record { size = self.old.size; pieces = cut self.old.size First (take end buffer.old.items) } }
        ensures whole { vec_len buffer.new ≡ longest_put }
    {
        mem::swap(&mut self.buffer, buffer);
        self.gone = 0;
        self.end = end;
    }

    /// Whether nothing waits.
    pub fn is_over(&self) -> bool
        ensures { result ≡ (length self.now.pieces == 0) }
    {
        let left = left_of(&self.buffer, self.gone, self.end);
        left.is_empty()
    }

    /// The piece that comes next, none where nothing waits.
    pub fn first(&self) -> Option<(Boundary, &[u8])>
        ensures some { IfSome result (λ piece. self.now.pieces ≡ record { boundary = piece.0; octets = piece.1.now } ∷ drop 1 self.now.pieces) }
        ensures none { IfNone result (self.now.pieces ≡ []) }
        ensures short { IfSome result (λ piece. length piece.1.now ≤ self.now.size) }
    {
        let left = left_of(&self.buffer, self.gone, self.end);
        if left.is_empty() {
            return None;
        }
        let size = left.len().min(usize::from(self.size));
        Some((boundary_after(self.gone), &left[..size]))
    }

    /// Takes the next piece away. It needs one.
    pub fn advance(&mut self)
        requires { self.old.pieces ≢ [] }
        ensures { self.new ≡ record { size = self.old.size; pieces = drop 1 self.old.pieces } }
    {
        let left = left_of(&self.buffer, self.gone, self.end);
        let size = left.len().min(usize::from(self.size));
        self.gone += size;
    }
}
