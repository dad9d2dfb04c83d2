//! A host of a mind over its line.

ghost use Rattle.std.specs.Prelude.{◌≡◌, [], true, false, None};
ghost use Rattle.push_terms.specs.declared.word.Side.TheVariants as sides;
ghost use Rattle.h4_framing.specs.Packets.{packet};
ghost use Rattle.radio_world.specs.radio_model.specs.Controllers.{address};
ghost use Rattle.host_link.specs.Hearing.{plain_news};
ghost use Rattle.host_link.specs.PuttingOut.{can_take_pdu};
ghost use Rattle.host_link.specs.Calling.{may_end};
ghost use Rattle.line_laws.specs.Seeing.{IsSeen, is_asking};
ghost use Rattle.tiny_hosts.specs.Hosting.{GoesOn, WaitsMore, IsStuck, IsReady, IsTold, HearsComing};

use crate::mind::Mind;
use crate::told::Told;
use bt_base::BdAddr;
use h4_framing::Unit;
use host_link::{HostLink, News};
use std::marker::Model;

/// A mind above the half of a host that faces its controller, and the octets of a packet that is not
/// whole yet. A clause sees the three.
#[derive(Drop)]
pub struct TinyHost<M> {
    pub(crate) mind: M,
    pub(crate) line: HostLink,
    pub(crate) held: Vec<u8>,
}

impl<M> Model for TinyHost<M> {
    ghost use Rattle.tiny_hosts.specs.Hosting.{Tiny};

    ghost Value = { Tiny M };

    ghost view = { λ host. record { mind = host.mind; line = host.line; held = host.held.items } };
}

/// Says all PDUs that may be taken now.
pub(crate) fn say_all<M: Mind>(mind: &mut M, line: &mut HostLink)
    ensures goes { IsSeen M.side mind.old line.old → GoesOn M.machine M.side mind.old mind.new line.old line.new }
    ensures said { can_take_pdu line.new ≡ true → M.machine.next mind.new ≡ None }
    ensures stuck { IsStuck line.new }
{
    line.put_pieces();
    while line.can_take_pdu() && mind.has_pdu() {
        let pdu = mind.say();
        line.take_pdu(&pdu);
    }
}

/// The address of device b.
fn device_b() -> BdAddr
    ensures { result ≡ address sides.B }
{
    let Some(address) = BdAddr::of(&[0x0B, 0, 0, 0, 0, 0]) else {
        unreachable!()
    };
    address
}

/// Asks for a link, where the mind wants one, none is up, and none was asked for. Host b asks for
/// none.
pub(crate) fn call<M: Mind>(mind: &M, line: &mut HostLink)
    ensures goes { IsSeen M.side mind.now line.old → GoesOn M.machine M.side mind.now mind.now line.old line.new }
    ensures link { WaitsMore line.old line.new }
    ensures asks { IsSeen M.side mind.now line.old → M.machine.wants_link mind.now ≡ true → line.new.link ≡ None → is_asking line.new ≡ true }
{
    if line.link().is_none() && mind.wants_link() && !line.is_asking() {
        line.connect(device_b());
    }
}

/// Ends the link, where the mind leaves it, has said all, and may end it.
pub(crate) fn leave<M: Mind>(mind: &M, line: &mut HostLink)
    ensures goes { IsSeen M.side mind.now line.old → GoesOn M.machine M.side mind.now mind.now line.old line.new }
    ensures link { WaitsMore line.old line.new }
    ensures asks { is_asking line.old ≡ true → is_asking line.new ≡ true }
    ensures left { line.new.pieces ≡ [] → M.machine.next mind.now ≡ None → M.machine.leaves_link mind.now ≡ true → may_end line.new ≡ false }
{
    if line.waits() || mind.has_pdu() || !mind.leaves_link() || !line.may_end() {
        return;
    }
    line.disconnect();
}

/// Does all that a host can do by itself.
pub(crate) fn go_on<M: Mind>(mind: &mut M, line: &mut HostLink)
    ensures goes { IsSeen M.side mind.old line.old → GoesOn M.machine M.side mind.old mind.new line.old line.new }
    ensures ready { IsSeen M.side mind.old line.old → IsReady M.machine M.side mind.new line.new }
{
    say_all(mind, line);
    call(mind, line);
    leave(mind, line);
    line.put_command();
}

/// Tells a mind what its line heard.
fn tell<M: Mind>(mind: &mut M, news: News<'_>)
    ensures { IsTold M.machine (plain_news news.entry) mind.old mind.new }
{
    match news {
        News::Nothing => {}
        News::LinkUp => mind.hear(Told::LinkUp),
        News::LinkFailed(status) => mind.hear(Told::LinkFailed(status)),
        News::LinkDown(reason) => mind.hear(Told::LinkDown(reason)),
        News::Pdu(_, pdu) => mind.hear(Told::Pdu(pdu)),
    }
}

/// Hears a packet of the controller, where it may come, and goes on.
pub(crate) fn hear<M: Mind>(mind: &mut M, line: &mut HostLink, unit: Unit<'_>)
    ensures { HearsComing M.machine M.side (packet unit.entry) mind.old mind.new line.old line.new }
{
    let Ok(news) = line.hear(unit) else {
        return;
    };
    tell(mind, news);
    go_on(mind, line);
}
