//! Rings of octets, and rings that grow.

ghost use Rattle.std.specs.Prelude.{◌≡◌, ◌≢◌, ◌+◌, ◌-◌, ◌≤◌, ◌<◌, ◌^◌, ◌++◌, length, take, drop, bit_xor, slice_set, slice_index, OnOk, OnErr};
ghost use Rattle.byteorder.specs.Endian.{little_number};

use bt_base::NoMemory;
use circular_buffer::HeapCircularBuffer;

/// Makes room for `more` items behind those of a ring. One that has too little is made twice as
/// large, or as large as is wanted. `NoMemory` where that cannot be had: then all is as it was.
pub(crate) fn make_room<T: Drop>(
    ring: &mut HeapCircularBuffer<T>,
    more: usize,
) -> Result<(), NoMemory>
    requires { more < 2 ^ 32 }
    ensures items { ring.new.items ≡ ring.old.items }
    ensures grown { ring.old.capacity ≤ ring.new.capacity }
    ensures room { OnOk result (length ring.old.items + more ≤ ring.new.capacity) }
    ensures full { OnErr result (ring.old.capacity < length ring.old.items + more) }
{
    let wanted = ring.len() + more;
    let capacity = ring.capacity();
    if wanted > capacity {
        ring.resize(wanted.max(2 * capacity))?;
    }
    Ok(())
}

/// Puts octets behind those of a ring, which is made larger where they do not fit. `NoMemory` where
/// that cannot be had: then all is as it was.
pub(crate) fn append(ring: &mut HeapCircularBuffer<u8>, octets: &[u8]) -> Result<(), NoMemory>
    requires { length octets.now < 2 ^ 32 }
    ensures items { OnOk result (ring.new.items ≡ ring.old.items ++ octets.now) }
    ensures unchanged { OnErr result (ring.new.items ≡ ring.old.items) }
    ensures grown { ring.old.capacity ≤ ring.new.capacity }
    ensures full { OnErr result (ring.old.capacity < length ring.old.items + length octets.now) }
{
    make_room(ring, octets.len())?;
    let _all_fit = ring.fill_from_slice(octets);
    Ok(())
}

/// Copies the octets of a ring from the place `from` on, as many as `into` has.
pub(crate) fn copy_from(ring: &HeapCircularBuffer<u8>, from: usize, into: &mut [u8])
    requires { from + length into.old ≤ length ring.now.items }
    ensures { into.new ≡ take (length into.old) (drop from ring.now.items) }
{
    let (front, back) = ring.as_slices();
    if from >= front.len() {
        let from = from - front.len();
        into.copy_from_slice(&back[from..from + into.len()]);
        return;
    }
    let front = &front[from..];
    if into.len() <= front.len() {
        into.copy_from_slice(&front[..into.len()]);
        return;
    }
    let left = into.len() - front.len();
    into[..front.len()].copy_from_slice(front);
    into[front.len()..].copy_from_slice(&back[..left]);
}

/// The octets of a ring from the place `from` on, as many as `count` says, in two parts: those up to
/// the end of its block, and those that follow at its front.
pub(crate) fn part(ring: &HeapCircularBuffer<u8>, from: usize, count: usize) -> (&[u8], &[u8])
    requires { from + count ≤ length ring.now.items }
    ensures { result.0.now ++ result.1.now ≡ take count (drop from ring.now.items) }
{
    let (front, back) = ring.as_slices();
    if from >= front.len() {
        let at = from - front.len();
        return (&back[at..at + count], &[]);
    }
    let front = &front[from..];
    if count <= front.len() {
        return (&front[..count], &[]);
    }
    (front, &back[..count - front.len()])
}

/// Combines the octet at a place by exclusive or with a mask.
pub(crate) fn change(ring: &mut HeapCircularBuffer<u8>, at: usize, mask: u8)
    requires { at < length ring.old.items }
    ensures items { ring.new.items ≡ slice_set ring.old.items at (bit_xor (slice_index ring.old.items at) mask) }
    ensures capacity { ring.new.capacity ≡ ring.old.capacity }
{
    if let Some(octet) = ring.get_mut(at) {
        *octet ^= mask;
    }
}

/// The number of the two octets at a place, the lower one first.
pub(crate) fn number_at(ring: &HeapCircularBuffer<u8>, at: usize) -> u16
    requires { at + 2 ≤ length ring.now.items }
    ensures { result ≡ little_number 2 (drop at ring.now.items) }
{
    let mut octets = [0; 2];
    copy_from(ring, at, &mut octets);
    u16::from_le_bytes(octets)
}
