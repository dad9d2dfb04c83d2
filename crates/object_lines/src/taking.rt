//! Which channel of a link takes a PDU.

ghost use Rattle.std.specs.Prelude.{◌≡◌, ◌==◌, ◌&&◌, IfSome, find, option_map};
ghost use Rattle.link_talk.specs.declared.channel.Channel.{Channel as PlainChannel};
ghost use Rattle.link_talk.specs.Channels.{Entry as PlainEntry};
ghost use Rattle.link_talk.specs.Carriages.{endpoint, is_heard, takes, taker, carried_by, entry_mode};
ghost use Rattle.link_readers.specs.Lent.{plain_saying, plain_entry};
ghost use Rattle.object_lines.specs.Passes.{has_endpoint, taken_on, kept_entries};

use crate::octets::channel_of;
use crate::passing::KeptChannel;
use capture::Flow;
use l2cap_config::Mode;
use link_readers::{Entry, Saying};
use link_talk::Channel;

/// A PDU, and the channel that takes it: the endpoint of its host, and its mode.
#[derive(Clone, Copy, Debug)]
pub(crate) struct Taken<'p> {
    pub(crate) own: u16,
    pub(crate) mode: Mode,
    pub(crate) flow: Flow,
    pub(crate) pdu: &'p [u8],
}

/// The endpoint that a PDU names which goes over a channel.
fn endpoint(flow: Flow, channel: &Channel) -> u16
    ensures { result ≡ endpoint flow channel.now }
{
    match flow {
        Flow::Out => channel.peer,
        Flow::Into => channel.own,
    }
}

/// Whether a PDU counts that goes over a channel.
fn counts(flow: Flow, entry: &Entry) -> bool
    ensures { result ≡ is_heard flow (plain_entry entry.now) }
{
    match flow {
        Flow::Out => entry.setup.is_set() && entry.is_there(),
        Flow::Into => entry.setup.is_set() && entry.is_alive(),
    }
}

/// The endpoint of the host on the channel that takes a PDU, of those that are there.
fn taker(kept: &[KeptChannel], flow: Flow, pdu: &[u8]) -> Option<u16>
    ensures { result ≡ option_map (λ (entry : PlainEntry). entry.channel.own) (taker is_heard flow pdu.now (kept_entries kept.now)) }
{
    let identifier = channel_of(pdu);
    for one in kept {
        if counts(flow, &one.entry) && endpoint(flow, &one.entry.channel) == identifier {
            return Some(one.entry.channel.own);
        }
    }
    None
}

/// The mode of the first channel with an endpoint of the host.
fn mode_with(kept: &[KeptChannel], own: u16) -> Mode
    ensures { result ≡ entry_mode (find (has_endpoint own) (kept_entries kept.now)) }
{
    for one in kept {
        if one.entry.channel.own == own {
            return one.entry.setup.mode();
        }
    }
    Mode::Basic
}

/// The PDU that a saying is, if a channel takes it.
pub(crate) fn taken_in<'p>(kept: &[KeptChannel], saying: &Saying<'p>) -> Option<Taken<'p>>
    ensures on { (channel : PlainChannel) → taken_on channel result ≡ carried_by is_heard channel (kept_entries kept.now) (plain_saying saying.now) }
    ensures mode { IfSome result (λ taken. taken.mode ≡ entry_mode (find (has_endpoint taken.own) (kept_entries kept.now))) }
{
    let Saying::Carried(flow, pdu) = *saying else {
        return None;
    };
    let own = taker(kept, flow, pdu)?;
    let mode = mode_with(kept, own);
    Some(Taken {
        own,
        mode,
        flow,
        pdu,
    })
}
