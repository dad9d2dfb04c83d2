//! What is kept of each link: a group of pieces that is open, and the channels.

ghost use Rattle.std.specs.Prelude.{◌≡◌, ◌+◌, ◌<◌, ◌≤◌, ◌⊎◌, ℕ, get_or, ◌++◌, ◌∷◌, List, length, Option, [], None, Some, IfOk, OnOk, if◌then◌else◌};
ghost use Rattle.std.specs.List.{AllByRecursion};
ghost use Rattle.acl_fragments.specs.Pieces.{Piece};
ghost use Rattle.h4_view.specs.Details.{IsHolding, IsJoinerOf, IsSpare, IsLink, Knows};
ghost use Rattle.h4_view.specs.Lanes.{joiners};

use acl_fragments::Joiner;
use bt_base::NoMemory;
use seen_channels::{Channels, Direction};
use std::alloc::Global;

/// The longest PDU that a length field of two octets can state, with its header, in octets.
const PDU_LIMIT: u32 = 65_539;

/// For how many handles there is room at first. Most links have a small one.
pub(crate) const FIRST_PLACES: usize = 16;

/// What is kept of a link.
#[derive(Drop)]
pub(crate) struct Link {
    /// What holds the group of pieces that is open, where one is.
    pub(crate) joiner: Option<Joiner>,
    /// Which way the last group goes.
    pub(crate) direction: Direction,
    pub(crate) channels: Channels,
}

/// What is kept of all links: a place for each handle up to the greatest that had one. Joiners take much room, so there are no more
/// than groups were ever open at once.
#[derive(Drop)]
pub(crate) struct Links {
    pub(crate) places: Vec<Option<Link>>,
    /// Joiners that hold nothing.
    pub(crate) spare: Vec<Joiner>,
}

impl Link {
    pub(crate) fn new(alloc: Global) -> Link
        ensures { IsLink [] result }
    {
        Link {
            joiner: None,
            direction: Direction::Out,
            channels: Channels::new(alloc),
        }
    }
}

impl Links {
    /// Nothing is kept of any handle yet.
    pub(crate) fn new(alloc: Global) -> Result<Links, NoMemory>
        ensures { IfOk result (λ links. Knows [] links) }
    {
        Ok(Links {
            places: Vec::with_capacity(alloc, FIRST_PLACES)?,
            spare: Vec::new(alloc),
        })
    }
}

/// Makes a place for a handle where there is none yet: the kernel hands out memory slowly, and most
/// handles never have a link.
pub(crate) fn make_place<T: Drop>(places: &mut Vec<Option<T>>, at: usize) -> Result<(), NoMemory>
    requires { at < 0x0F00 }
    ensures there { OnOk result (at < length places.new.items) }
    ensures same { OnOk result ((handle : ℕ) → get_or places.new.items handle None ≡ get_or places.old.items handle None) }
{
    let wanting = (at + 1).saturating_sub(places.len());
    for _ in 0..wanting {
        places.push(None)?;
    }
    Ok(())
}

/// A joiner for a piece of a link: that which holds the link's open group, or one that holds nothing.
pub(crate) fn take_joiner(
    alloc: Global,
    kept: Option<Joiner>,
    spare: &mut Vec<Joiner>,
) -> Result<Joiner, NoMemory>
    ensures joiner { IfOk result (λ joiner. AllByRecursion IsSpare spare.old.items → (pieces : List Piece) → IsJoinerOf pieces kept → IsHolding pieces joiner) }
    ensures few { OnOk result ((length spare.new.items + 1 ≤ length spare.old.items + joiners kept) ⊎ (spare.new.items ≡ [])) }
    ensures spare { OnOk result (AllByRecursion IsSpare spare.old.items → AllByRecursion IsSpare spare.new.items) }
{
    if let Some(joiner) = kept {
        return Ok(joiner);
    }
    match spare.pop() {
        Some(joiner) => Ok(joiner),
        None => Joiner::new(alloc, PDU_LIMIT),
    }
}

/// The joiner of a link whose group goes on; one whose group ended is spare.
pub(crate) fn keep_joiner(
    spare: &mut Vec<Joiner>,
    joiner: Joiner,
    goes_on: bool,
) -> Result<Option<Joiner>, NoMemory>
    ensures kept { IfOk result (λ kept. kept ≡ (if goes_on then Some joiner else None)) }
    ensures spare { OnOk result (spare.new.items ≡ (if goes_on then spare.old.items else spare.old.items ++ joiner ∷ [])) }
{
    if goes_on {
        return Ok(Some(joiner));
    }
    spare.push(joiner)?;
    Ok(None)
}
