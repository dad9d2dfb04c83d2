//! What a packet means for the link of its host.

ghost use Rattle.std.specs.Prelude.{◌≡◌, is_none};
ghost use Rattle.hci_packets.specs.Commands.{command_refusal};
ghost use Rattle.hci_packets.specs.Events.{event_refusal};
ghost use Rattle.capture.specs.Links.{asked_by, told_by, link_news};
ghost use Rattle.capture.specs.Lent.{plain_move};
ghost use Rattle.object_lines.specs.Held.{plain_news};

use bt_base::read_le16;
use capture::Flow;
use capture::readers::Move;
use h4_framing::Unit;
use hci_packets::{command_of, event_of};

const CREATE_CONNECTION: u16 = 0x0405;

const ACCEPT_CONNECTION: u16 = 0x0409;

const CONNECTION_COMPLETE: u8 = 0x03;

const DISCONNECTION_COMPLETE: u8 = 0x05;

/// What a packet means for the link of its host (Core 5.1, Volume 2 Part E, 7.1.5, 7.1.8, 7.7.3 and 7.7.5).
#[derive(Clone, Copy, Debug)]
pub(crate) enum News {
    Asked,
    Answered { status: u8, handle: u16 },
    Ended(u16),
    Nothing,
}

fn is_command(opcode: u16, params: &[u8]) -> bool
    ensures { result ≡ is_none (command_refusal opcode params.now) }
{
    match command_of(opcode, params) {
        Ok(_) => true,
        Err(_) => false,
    }
}

fn is_event(code: u8, params: &[u8]) -> bool
    ensures { result ≡ is_none (event_refusal code params.now) }
{
    match event_of(code, params) {
        Ok(_) => true,
        Err(_) => false,
    }
}

fn asked_by(opcode: u16, params: &[u8]) -> News
    ensures { plain_news result ≡ asked_by opcode params.now }
{
    if (opcode == CREATE_CONNECTION || opcode == ACCEPT_CONNECTION) && is_command(opcode, params) {
        return News::Asked;
    }
    News::Nothing
}

fn told_by(code: u8, params: &[u8]) -> News
    ensures { plain_news result ≡ told_by code params.now }
{
    if !is_event(code, params) {
        return News::Nothing;
    }
    if code == CONNECTION_COMPLETE {
        return News::Answered {
            status: params[0],
            handle: read_le16(&params[1..]),
        };
    }
    if code == DISCONNECTION_COMPLETE && params[0] == 0 {
        return News::Ended(read_le16(&params[1..]));
    }
    News::Nothing
}

pub(crate) fn news_of(moved: &Move<'_>) -> News
    ensures { plain_news result ≡ link_news (plain_move moved.now) }
{
    match (moved.flow, moved.unit) {
        (Flow::Out, Unit::Command { opcode, params }) => asked_by(opcode, params),
        (Flow::Into, Unit::Event { code, params }) => told_by(code, params),
        _ => News::Nothing,
    }
}
