//! The links of a host, held as its packets come: nothing is kept of a packet but what it says.

ghost use Rattle.std.specs.Prelude.{◌≡◌, [], false, List, Some, None, IfOk, IfSome, OnOk, fold};
ghost use Rattle.std.specs.List.{flat_map};
ghost use Rattle.capture.specs.Lent.{plain_move};
ghost use Rattle.capture.specs.Links.{Answered, LinkEnded, NoNews};
ghost use Rattle.capture.specs.Pdus.{pdu_limit};
ghost use Rattle.link_talk.specs.Sayings.{said_by};
ghost use Rattle.link_readers.specs.talk_laws.specs.CapturePass.{completed_with, octets_with, link_after, new_link, links_by, links_after};
ghost use Rattle.object_lines.specs.Passes.{Telling, no_telling, telling_after, plain_telling};
ghost use Rattle.object_lines.specs.Held.{plain_piece, plain_link, JoinsPdus, plain_links, past_with};

use crate::news::{News, news_of};
use crate::passing::LinkPass;
use crate::piece::{Piece, piece_of};
use acl_fragments::{Got, Joiner};
use bt_base::NoMemory;
use capture::Flow;
use capture::readers::Move;
use link_talk::Party;
use std::alloc::Global;

/// The longest PDU out of a host, in octets: as long as its length field can say.
const LONGEST_OUT: u32 = 65_539;

/// The longest PDU into a host, in octets.
const LONGEST_INTO: u32 = 32_775;

/// A link that is up: its handle, what joins its PDUs out of its host and into it, and what is held of its talk.
#[derive(Drop)]
pub(crate) struct HeldLink {
    handle: u16,
    out: Joiner,
    into: Joiner,
    pub(crate) pass: LinkPass,
}

/// Whether a host asked for a connection since it was last told of one, and the link that is up.
#[derive(Drop)]
pub(crate) struct HeldLinks {
    asked: bool,
    pub(crate) up: Option<HeldLink>,
}

/// Hears what the PDU says that a piece completes.
fn join(
    alloc: Global,
    party: &Party,
    pass: &mut LinkPass,
    joiner: &mut Joiner,
    flow: Flow,
    part: Piece<'_>,
) -> Result<(), NoMemory>
    requires { joiner.old.limit ≡ pdu_limit flow }
    ensures { OnOk result ((joiner.new.limit ≡ pdu_limit flow)
        × (joiner.new.octets ≡ octets_with flow joiner.old.octets (Some (plain_piece part.entry)))
        × (plain_telling pass.new ≡ fold (telling_after party.now) (plain_telling pass.old) (flat_map said_by (completed_with flow joiner.old.octets (Some (plain_piece part.entry)))))) }
{
    let joined = joiner.take(part.boundary, part.octets);
    if let Got::Pdu(_, pdu) = joined.got {
        pass.hear_pdu(alloc, party, flow, pdu)?;
    }
    Ok(())
}

impl HeldLink {
    fn new(alloc: Global, handle: u16) -> Result<HeldLink, NoMemory>
        ensures { IfOk result (λ link. (plain_link link ≡ new_link no_telling handle) × JoinsPdus link) }
    {
        Ok(HeldLink {
            handle,
            out: Joiner::new(alloc, LONGEST_OUT)?,
            into: Joiner::new(alloc, LONGEST_INTO)?,
            pass: LinkPass::new(alloc),
        })
    }

    /// Hears what a packet says on the link.
    fn hear(&mut self, alloc: Global, party: &Party, moved: &Move<'_>) -> Result<(), NoMemory>
        requires { JoinsPdus self.old }
        ensures { OnOk result ((plain_link self.new ≡ link_after (telling_after party.now) (plain_move moved.now) (plain_link self.old)) × JoinsPdus self.new) }
    {
        let Some(part) = piece_of(self.handle, &moved.unit) else {
            return Ok(());
        };
        match moved.flow {
            Flow::Out => join(alloc, party, &mut self.pass, &mut self.out, Flow::Out, part)?,
            Flow::Into => join(
                alloc,
                party,
                &mut self.pass,
                &mut self.into,
                Flow::Into,
                part,
            )?,
        }
        Ok(())
    }
}

impl HeldLinks {
    pub(crate) fn new() -> HeldLinks
        ensures links { plain_links [] result ≡ record { asked = false; past = []; up = None } }
        ensures joins { IfSome result.up JoinsPdus }
    {
        HeldLinks {
            asked: false,
            up: None,
        }
    }

    /// The link that is up goes on.
    fn go_on(&mut self, alloc: Global, party: &Party, moved: &Move<'_>) -> Result<(), NoMemory>
        requires { IfSome self.old.up JoinsPdus }
        ensures said { OnOk result ((past : List Telling) → plain_links past self.new ≡ links_by (telling_after party.now) no_telling (plain_move moved.now) (plain_links past self.old) NoNews) }
        ensures joins { OnOk result (IfSome self.new.up JoinsPdus) }
    {
        if let Some(link) = &mut self.up {
            link.hear(alloc, party, moved)?;
        }
        Ok(())
    }

    /// A Connection Complete: it makes a link where one was asked for and none is up.
    fn answer(
        &mut self,
        alloc: Global,
        party: &Party,
        status: u8,
        handle: u16,
        moved: &Move<'_>,
    ) -> Result<(), NoMemory>
        requires { IfSome self.old.up JoinsPdus }
        ensures said { OnOk result ((past : List Telling) → plain_links past self.new ≡ links_by (telling_after party.now) no_telling (plain_move moved.now) (plain_links past self.old) (Answered status handle)) }
        ensures joins { OnOk result (IfSome self.new.up JoinsPdus) }
    {
        let asked = self.asked;
        self.asked = false;
        if self.up.is_some() {
            self.go_on(alloc, party, moved)?;
            return Ok(());
        }
        if asked && status == 0 {
            self.up = Some(HeldLink::new(alloc, handle)?);
        }
        Ok(())
    }

    /// A Disconnection Complete. The answer is the link of its handle, which has ended.
    fn end(
        &mut self,
        alloc: Global,
        party: &Party,
        handle: u16,
        moved: &Move<'_>,
    ) -> Result<Option<HeldLink>, NoMemory>
        requires { IfSome self.old.up JoinsPdus }
        ensures said { IfOk result (λ ended. (past : List Telling) → plain_links (past_with past ended) self.new ≡ links_by (telling_after party.now) no_telling (plain_move moved.now) (plain_links past self.old) (LinkEnded handle)) }
        ensures joins { OnOk result (IfSome self.new.up JoinsPdus) }
    {
        let Some(mut link) = self.up.take() else {
            return Ok(None);
        };
        if link.handle == handle {
            return Ok(Some(link));
        }
        link.hear(alloc, party, moved)?;
        self.up = Some(link);
        Ok(None)
    }

    /// Hears what a packet says. The answer is the link that it ends.
    pub(crate) fn hear(
        &mut self,
        alloc: Global,
        party: &Party,
        moved: &Move<'_>,
    ) -> Result<Option<HeldLink>, NoMemory>
        requires { IfSome self.old.up JoinsPdus }
        ensures said { IfOk result (λ ended. (past : List Telling) → plain_links (past_with past ended) self.new ≡ links_after (telling_after party.now) no_telling (plain_links past self.old) (plain_move moved.now)) }
        ensures joins { OnOk result (IfSome self.new.up JoinsPdus) }
    {
        match news_of(moved) {
            News::Asked => {
                self.go_on(alloc, party, moved)?;
                self.asked = true;
                Ok(None)
            }
            News::Answered { status, handle } => {
                self.answer(alloc, party, status, handle, moved)?;
                Ok(None)
            }
            News::Ended(handle) => self.end(alloc, party, handle, moved),
            News::Nothing => {
                self.go_on(alloc, party, moved)?;
                Ok(None)
            }
        }
    }
}
