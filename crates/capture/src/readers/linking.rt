//! The links of one host.

ghost use Rattle.std.specs.Prelude.{◌≡◌, ◌<◌, ◌^◌, IfOk, OnOk, length, is_none, map, option_to_list, ◌++◌};
ghost use Rattle.std.specs.Option.{option_map};
ghost use Rattle.h4_framing.specs.Packets.{packet};
ghost use Rattle.hci_packets.specs.Commands.{command_refusal};
ghost use Rattle.hci_packets.specs.Events.{event_refusal};
ghost use Rattle.capture.specs.Links.{Answered, LinkEnded, asked_by, told_by, link_news, no_links, gone_on, after_news, after_move, linking, links, link_up};
ghost use Rattle.capture.specs.Lent.{plain_entries, plain_move, plain_moves, plain_link};
ghost use Rattle.capture.specs.ReadLinks.{plain_news, plain_linking};

use crate::entry::Entry;
use crate::flow::Flow;
use crate::readers::moving::moves;
use crate::readers::{Link, Move};
use bt_base::{NoMemory, read_le16};
use h4_framing::Unit;
use hci_packets::{command_of, event_of};
use push_terms::Side;
use std::alloc::Global;

const CREATE_CONNECTION: u16 = 0x0405;

const ACCEPT_CONNECTION: u16 = 0x0409;

const CONNECTION_COMPLETE: u8 = 0x03;

const DISCONNECTION_COMPLETE: u8 = 0x05;

/// What a packet means for the link of its host.
#[derive(Clone, Copy, Debug, PartialEq, Eq)]
enum LinkNews {
    Asked,
    Answered { status: u8, handle: u16 },
    Ended(u16),
    None,
}

/// The links of a host so far: whether it asked for a connection since it was last told of one, the
/// links that ended, and the one that is up.
#[derive(Debug, Drop)]
struct Linking<'a> {
    asked: bool,
    past: Vec<Link<'a>>,
    up: Option<Link<'a>>,
}

fn is_command(opcode: u16, params: &[u8]) -> bool
    ensures { result ≡ is_none (command_refusal opcode params.now) }
{
    match command_of(opcode, params) {
        Ok(_) => true,
        Err(_) => false,
    }
}

pub(crate) fn is_event(code: u8, params: &[u8]) -> bool
    ensures { result ≡ is_none (event_refusal code params.now) }
{
    match event_of(code, params) {
        Ok(_) => true,
        Err(_) => false,
    }
}

fn asked_by(opcode: u16, params: &[u8]) -> LinkNews
    ensures { plain_news result ≡ asked_by opcode params.now }
{
    if (opcode == CREATE_CONNECTION || opcode == ACCEPT_CONNECTION) && is_command(opcode, params) {
        return LinkNews::Asked;
    }
    LinkNews::None
}

fn told_by(code: u8, params: &[u8]) -> LinkNews
    ensures { plain_news result ≡ told_by code params.now }
{
    if !is_event(code, params) {
        return LinkNews::None;
    }
    if code == CONNECTION_COMPLETE {
        return LinkNews::Answered {
            status: params[0],
            handle: read_le16(&params[1..]),
        };
    }
    if code == DISCONNECTION_COMPLETE && params[0] == 0 {
        return LinkNews::Ended(read_le16(&params[1..]));
    }
    LinkNews::None
}

fn link_news(moved: &Move<'_>) -> LinkNews
    ensures { plain_news result ≡ link_news (plain_move moved.now) }
{
    match (moved.flow, moved.unit) {
        (Flow::Out, Unit::Command { opcode, params }) => asked_by(opcode, params),
        (Flow::Into, Unit::Event { code, params }) => told_by(code, params),
        _ => LinkNews::None,
    }
}

impl<'a> Linking<'a> {
    fn new(alloc: Global) -> Linking<'a>
        ensures { plain_linking result ≡ no_links }
    {
        Linking {
            asked: false,
            past: Vec::new(alloc),
            up: None,
        }
    }

    /// The link that is up goes on.
    fn go_on(&mut self, moved: Move<'a>) -> Result<(), NoMemory>
        ensures { OnOk result (plain_linking self.new ≡ gone_on (plain_move moved.entry) (plain_linking self.old)) }
    {
        if let Some(link) = &mut self.up {
            link.moves.push(moved)?;
        }
        Ok(())
    }

    /// A Connection Complete: it makes a link where one was asked for and none is up.
    fn answer(
        &mut self,
        alloc: Global,
        status: u8,
        handle: u16,
        moved: Move<'a>,
    ) -> Result<(), NoMemory>
        ensures { OnOk result (plain_linking self.new ≡ after_news (plain_move moved.entry) (plain_linking self.old) (Answered status handle)) }
    {
        let asked = self.asked;
        self.asked = false;
        if self.up.is_some() {
            return self.go_on(moved);
        }
        if asked && status == 0 {
            let moves = Vec::new(alloc);
            self.up = Some(Link { handle, moves });
        }
        Ok(())
    }

    /// A Disconnection Complete: it ends the link of its handle.
    fn end(&mut self, handle: u16, moved: Move<'a>) -> Result<(), NoMemory>
        ensures { OnOk result (plain_linking self.new ≡ after_news (plain_move moved.entry) (plain_linking self.old) (LinkEnded handle)) }
    {
        let Some(mut link) = self.up.take() else {
            return Ok(());
        };
        if link.handle == handle {
            self.past.push(link)?;
            return Ok(());
        }
        link.moves.push(moved)?;
        self.up = Some(link);
        Ok(())
    }

    fn take(&mut self, alloc: Global, moved: Move<'a>) -> Result<(), NoMemory>
        ensures { OnOk result (plain_linking self.new ≡ after_move (plain_linking self.old) (plain_move moved.entry)) }
    {
        match link_news(&moved) {
            LinkNews::Asked => {
                self.asked = true;
                self.go_on(moved)
            }
            LinkNews::Answered { status, handle } => self.answer(alloc, status, handle, moved),
            LinkNews::Ended(handle) => self.end(handle, moved),
            LinkNews::None => self.go_on(moved),
        }
    }
}

/// What the packets of a host say of its links.
fn linking_of<'a>(alloc: Global, moved: &[Move<'a>]) -> Result<Linking<'a>, NoMemory>
    ensures { IfOk result (λ found. plain_linking found ≡ linking (plain_moves moved.now)) }
{
    let mut linking = Linking::new(alloc);
    for packet in moved {
        linking.take(alloc, *packet)?;
    }
    Ok(linking)
}

/// The links of a host in their order. The last one may be up.
pub fn links<'a>(
    alloc: Global,
    entries: &[Entry<'a>],
    host: Side,
) -> Result<Vec<Link<'a>>, NoMemory>
    ensures { IfOk result (λ found. map plain_link found.items ≡ links host (plain_entries entries.now)) }
{
    let moved = moves(alloc, entries, host)?;
    let Linking { mut past, up, .. } = linking_of(alloc, &moved)?;
    if let Some(link) = up {
        past.push(link)?;
    }
    Ok(past)
}

/// The link of a host that is up at the end.
pub fn link_up<'a>(
    alloc: Global,
    entries: &[Entry<'a>],
    host: Side,
) -> Result<Option<Link<'a>>, NoMemory>
    ensures { IfOk result (λ found. option_map plain_link found ≡ link_up host (plain_entries entries.now)) }
{
    let moved = moves(alloc, entries, host)?;
    let linking = linking_of(alloc, &moved)?;
    Ok(linking.up)
}
