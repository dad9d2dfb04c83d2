//! A walk over octets from their front.

ghost use Rattle.std.specs.Prelude.{◌≡◌, ◌<◌, ◌≤◌, ◌∷◌, ◌++◌, List, ℕ, [], length, take, drop, IfSome, IfNone};
ghost use Rattle.bt_base.specs.Octets.{le16, be16, be32};

use crate::octets::{read_be16, read_be32, read_le16};
use std::marker::Model;

/// Walks a slice of octets. A clause sees a cursor as the octets that are left.
///
/// Each call that takes octets answers `None` exactly where fewer are left than it asks for, and
/// then takes none.
#[derive(Debug, Drop)]
pub struct Cursor<'a> {
    rest: &'a [u8],
}

impl<'a> Model for Cursor<'a> {
    ghost Value = { List ℕ };

    ghost view = { λ cursor. cursor.rest.now };
}

impl<'a> Cursor<'a> {
    /// A cursor at the front of `bytes`.
    pub fn new(bytes: &'a [u8]) -> Cursor<'a>
        ensures { result ≡ bytes.now }
    {
        Cursor { rest: bytes }
    }

    /// How many octets are left.
    pub fn left(&self) -> usize
        ensures { result ≡ length self.now }
    {
        self.rest.len()
    }

    /// The next `n` octets, lent from the slice.
    pub fn take(&mut self, n: usize) -> Option<&'a [u8]>
        ensures some { IfSome result (λ piece. (n ≤ length self.old) × (piece.now ≡ take n self.old) × (self.new ≡ drop n self.old)) }
        ensures none { IfNone result ((length self.old < n) × (self.new ≡ self.old)) }
    {
        if self.rest.len() < n {
            return None;
        }
        let (piece, rest) = self.rest.split_at(n);
        self.rest = rest;
        Some(piece)
    }

    /// The next octet.
    pub fn u8(&mut self) -> Option<u8>
        ensures some { IfSome result (λ octet. self.old ≡ octet ∷ self.new) }
        ensures none { IfNone result ((self.old ≡ []) × (self.new ≡ [])) }
    {
        let (first, rest) = self.rest.split_first()?;
        self.rest = rest;
        Some(*first)
    }

    /// The number in the next two octets, the low octet first.
    pub fn le16(&mut self) -> Option<u16>
        ensures some { IfSome result (λ number. self.old ≡ le16 number ++ self.new) }
        ensures none { IfNone result ((length self.old < 2) × (self.new ≡ self.old)) }
    {
        let octets = self.take(2)?;
        Some(read_le16(octets))
    }

    /// The number in the next two octets, the high octet first.
    pub fn be16(&mut self) -> Option<u16>
        ensures some { IfSome result (λ number. self.old ≡ be16 number ++ self.new) }
        ensures none { IfNone result ((length self.old < 2) × (self.new ≡ self.old)) }
    {
        let octets = self.take(2)?;
        Some(read_be16(octets))
    }

    /// The number in the next four octets, the highest octet first.
    pub fn be32(&mut self) -> Option<u32>
        ensures some { IfSome result (λ number. self.old ≡ be32 number ++ self.new) }
        ensures none { IfNone result ((length self.old < 4) × (self.new ≡ self.old)) }
    {
        let octets = self.take(4)?;
        Some(read_be32(octets))
    }
}
