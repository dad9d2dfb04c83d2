//! Cutting a PDU.

ghost use Rattle.std.specs.Prelude.{◌≡◌, ◌≤◌, [], ◌∷◌, IfSome, IfNone, if◌then◌else◌};
ghost use Rattle.acl_fragments.specs.Pieces.{Piece};
ghost use Rattle.acl_fragments.specs.Cuts.{cut};

use hci_packets::Boundary;
use std::marker::Model;

/// Cuts a PDU into pieces for ACL packets. A clause sees a cutter as the pieces that are to come.
#[derive(Debug, Drop)]
pub struct Cutter<'a> {
    rest: &'a [u8],
    length: u16,
    boundary: Boundary,
}

impl<'a> Model for Cutter<'a> {
    ghost use Rattle.std.specs.Prelude.{List, ◌≤◌};
    ghost use Rattle.acl_fragments.specs.Pieces.{Piece};
    ghost use Rattle.acl_fragments.specs.Cuts.{cut};

    ghost Value = { List Piece };

    ghost view = { λ cutter. cut cutter.length cutter.boundary cutter.rest.now };

    ghost invariant = { λ cutter. 1 ≤ cutter.length };
}

impl<'a> Cutter<'a> {
    /// The pieces of `pdu`: each has `length` octets, the last one the rest. The first is a start,
    /// as a host or a controller sends it, the others continue it.
    pub fn new(pdu: &'a [u8], length: u16, from_controller: bool) -> Cutter<'a>
        requires { 27 ≤ length }
        ensures { result ≡ cut length (if from_controller then Boundary.FirstFromController else Boundary.First) pdu.now }
    {
        let boundary = if from_controller {
            Boundary::FirstFromController
        } else {
            Boundary::First
        };
        Cutter {
            rest: pdu,
            length,
            boundary,
        }
    }

    /// The next piece, `None` after the last one.
    pub fn next(&mut self) -> Option<(Boundary, &'a [u8])>
        ensures some { IfSome result (λ piece. self.old ≡ record { boundary = piece.0; octets = piece.1.now } ∷ self.new) }
        ensures none { IfNone result ((self.old ≡ []) × (self.new ≡ [])) }
    {
        if self.rest.is_empty() {
            return None;
        }
        let size = self.rest.len().min(usize::from(self.length));
        let (piece, rest) = self.rest.split_at(size);
        let boundary = self.boundary;
        self.rest = rest;
        self.boundary = Boundary::Continuing;
        Some((boundary, piece))
    }
}
