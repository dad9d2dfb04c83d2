//! The information of the data frame that waits.

ghost use Rattle.std.specs.Prelude.{◌≡◌, ◌≤◌, [], length, IfOk};
ghost use Rattle.rfcomm_frames.specs.FrameReading.{is_empty};

use bt_base::NoMemory;
use std::alloc::Global;
use std::marker::Model;

/// Octets that wait, at most as many as were reserved. None wait where there are none.
///
/// A clause sees how many were reserved, and the octets.
#[derive(Drop)]
pub(crate) struct Pending {
    largest: u16,
    octets: Vec<u8>,
}

impl Model for Pending {
    ghost use Rattle.std.specs.Prelude.{◌≤◌, vec_len, vec_capacity};
    ghost use Rattle.rfcomm_mux.specs.Parts.{Held};

    ghost Value = { Held };

    ghost view = { λ p. record { largest = p.largest; octets = p.octets.items } };

    ghost invariant = { λ p. (p.largest ≤ vec_capacity p.octets) × (vec_len p.octets ≤ p.largest) };
}

impl Pending {
    /// Room for `largest` octets, of which none wait.
    pub(crate) fn new(alloc: Global, largest: u16) -> Result<Pending, NoMemory>
        ensures { IfOk result (λ pending. pending ≡ record { largest = largest; octets = [] }) }
    {
        let octets = Vec::with_capacity(alloc, usize::from(largest))?;
        Ok(Pending { largest, octets })
    }

    /// How many octets may wait.
    pub(crate) fn largest(&self) -> u16
        ensures { result ≡ self.now.largest }
    {
        self.largest
    }

    /// Whether no octets wait.
    pub(crate) fn is_empty(&self) -> bool
        ensures { result ≡ is_empty self.now.octets }
    {
        self.octets.is_empty()
    }

    /// These octets wait.
    pub(crate) fn put(&mut self, octets: &[u8])
        requires { length octets.now ≤ self.old.largest }
        ensures { self.new ≡ record { largest = self.old.largest; octets = octets.now } }
    {
        self.octets.clear();
        let _room_was_reserved = self.octets.extend_from_slice(octets);
    }

    /// The octets that wait.
    pub(crate) fn octets(&self) -> &[u8]
        ensures octets { result.now ≡ self.now.octets }
        ensures within { length result.now ≤ self.now.largest }
    {
        &self.octets
    }

    /// No octets wait.
    pub(crate) fn clear(&mut self)
        ensures { self.new ≡ record { largest = self.old.largest; octets = [] } }
    {
        self.octets.clear();
    }
}
