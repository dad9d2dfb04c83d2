use bt_base::{Cid, Psm, Settings};
use channel_model::{ChannelEvent, CloseReason};
use l2cap_channels::{Channels, SendAnswer, Up};
use std::alloc::Global;

/// Service discovery (Core 5.1, Volume 3 Part A, 4.2), for which basic mode is wished.
const DISCOVERY: u16 = 0x0001;

/// Object push, for which retransmission is wished.
const PUSH: u16 = 0x1001;

/// The channels of a host that sends a thing so often at most. Nothing where memory is wanting.
fn channels(alloc: Global, tries: u8, server: bool) -> Option<Channels> {
    let mut settings = Settings::plain();
    settings.tries = tries.clamp(2, 20);
    Channels::new(alloc, &settings, server).ok()
}

/// Asks for a channel.
fn asks(channels: &mut Channels, psm: u16) -> Option<Cid> {
    channels.connect(Psm::of(psm)?)
}

/// Whether the PDU that is given next has these octets.
fn gives(channels: &mut Channels, pdu: &[u8]) -> bool {
    let mut into = [0u8; 32775];
    match channels.next_pdu(&mut into) {
        Some(size) => into.get(..size) == Some(pdu),
        None => false,
    }
}

/// Whether nothing is given.
fn is_silent(channels: &mut Channels) -> bool {
    let mut into = [0u8; 32775];
    channels.next_pdu(&mut into).is_none()
}

/// Hears a PDU where no event waits; whether it did, and this was handed up.
#[tactic(auto, using(l2cap_channels::proofs::Giving::no_events))]
fn hears(channels: &mut Channels, cid: u16, pdu: &[u8], sdu: Option<&[u8]>) -> bool {
    if channels.next_event().is_some() {
        return false;
    }
    match channels.on_pdu(cid, pdu) {
        Up::Nothing => sdu.is_none(),
        Up::Received { sdu: octets, .. } => sdu == Some(octets),
    }
}

/// Whether a PDU on the signalling channel gets this answer.
fn answers(channels: &mut Channels, pdu: &[u8], answer: &[u8]) -> bool {
    hears(channels, 0x0001, pdu, None) && gives(channels, answer)
}

/// Whether what one host gives next is heard by the other, which hands this up.
fn passes(from: &mut Channels, to: &mut Channels, sdu: Option<&[u8]>) -> bool {
    let mut into = [0u8; 32775];
    let Some(size) = from.next_pdu(&mut into) else {
        return false;
    };
    let cid = u16::from_le_bytes([into[2], into[3]]);
    match into.get(..size) {
        Some(pdu) => hears(to, cid, pdu, sdu),
        None => false,
    }
}

/// The event that waits; where none does the timer fires.
#[tactic(auto, using(l2cap_channels::proofs::Giving::no_events))]
fn fire(channels: &mut Channels) -> Option<ChannelEvent> {
    let event = channels.next_event();
    if event.is_none() {
        channels.on_timer();
    }
    event
}

/// Whether the next event is that a channel is open.
fn opens(channels: &mut Channels) -> bool {
    matches!(channels.next_event(), Some(ChannelEvent::Opened(_, _)))
}

/// Whether an event is that a channel was asked for as often as may be.
fn is_given_up(event: Option<ChannelEvent>) -> bool {
    matches!(
        event,
        Some(ChannelEvent::Closed(_, _, CloseReason::RetryLimit))
    )
}

/// Whether an SDU is taken for a channel.
fn sends(channels: &mut Channels, cid: Cid, sdu: &[u8]) -> bool {
    match channels.peer_mtu(cid) {
        Some(mtu) if sdu.len() <= usize::from(mtu) => {
            channels.send(cid, sdu) == SendAnswer::Taken
        }
        _ => false,
    }
}

/// Whether a request is given four times, and then its channel is given up.
fn asks_four_times(client: &mut Channels, request: &[u8]) -> bool {
    for _ in 0..4 {
        if !gives(client, request)
            || !is_silent(client)
            || !client.armed()
            || fire(client).is_some()
        {
            return false;
        }
    }
    is_given_up(fire(client)) && !client.armed()
}

/// Whether the channel of service discovery is asked for as often as may be.
fn asks_in_vain(client: &mut Channels) -> bool {
    asks(client, DISCOVERY).is_some()
        && asks_four_times(client, &[8, 0, 1, 0, 2, 1, 4, 0, 1, 0, 0x40, 0])
}

/// Commands at a link on which no channel is.
fn questions_are_answered(server: &mut Channels) -> bool {
    answers(
        server,
        &[4, 0, 1, 0, 0x20, 5, 0, 0],
        &[6, 0, 1, 0, 1, 5, 2, 0, 0, 0],
    ) && answers(
        server,
        &[6, 0, 1, 0, 0x0A, 3, 2, 0, 2, 0],
        &[12, 0, 1, 0, 0x0B, 3, 8, 0, 2, 0, 0, 0, 0xA8, 0, 0, 0],
    ) && answers(
        server,
        &[6, 0, 1, 0, 8, 4, 2, 0, 0xAA, 0xBB],
        &[6, 0, 1, 0, 9, 4, 2, 0, 0xAA, 0xBB],
    ) && hears(server, 0x0001, &[4, 0, 1, 0, 8, 0, 0, 0], None)
        && is_silent(server)
}

/// A channel for service discovery is asked for, and options with an MTU of 47, which is too short.
fn options_are_answered(server: &mut Channels) -> bool {
    let options = [12, 0, 1, 0, 4, 7, 8, 0, 0x40, 0, 0, 0, 1, 2, 0x2F, 0];
    let refusal = [14, 0, 1, 0, 5, 7, 10, 0, 0x41, 0, 0, 0, 1, 0, 1, 2, 0x30, 0];
    answers(
        server,
        &[8, 0, 1, 0, 2, 6, 4, 0, 1, 0, 0x41, 0],
        &[12, 0, 1, 0, 3, 6, 8, 0, 0x40, 0, 0x41, 0, 0, 0, 0, 0],
    ) && answers(server, &options, &refusal)
        && answers(server, &options, &refusal)
}

/// A channel is set up: each side asks for its options and accepts those of the other.
fn are_agreed(client: &mut Channels, server: &mut Channels) -> bool {
    passes(client, server, None)
        && passes(server, client, None)
        && passes(client, server, None)
        && passes(server, client, None)
        && passes(server, client, None)
        && opens(client)
        && passes(client, server, None)
        && opens(server)
}

/// Whether an SDU of a channel that is agreed is passed.
fn pass_an_sdu(client: &mut Channels, server: &mut Channels, own: Cid) -> bool {
    are_agreed(client, server)
        && sends(client, own, &[1, 2, 3])
        && client.waits(own)
        && passes(client, server, Some(&[1, 2, 3]))
        && !client.waits(own)
}

/// What was given so often as may be is lost: the other end hears it late, and answers the repeat alike.
fn late_requests_are_answered(late: &[u8], client: &mut Channels, server: &mut Channels) -> bool {
    let response = [12, 0, 1, 0, 3, 1, 8, 0, 0x40, 0, 0x40, 0, 0, 0, 0, 0];
    answers(server, late, &response)
        && answers(server, late, &response)
        && hears(client, 0x0001, &response, None)
        && is_silent(client)
}

/// Whether a request is given twice, and then its channel is given up.
fn asks_twice(client: &mut Channels, request: &[u8]) -> bool {
    gives(client, request)
        && fire(client).is_none()
        && gives(client, request)
        && fire(client).is_none()
        && is_given_up(client.next_event())
        && is_silent(client)
}

/// Whether a channel that is asked for twice in vain is given up, and the other end still answers both requests alike.
fn give_up(client: &mut Channels, server: &mut Channels) -> bool {
    let request = [8, 0, 1, 0, 2, 1, 4, 0, 0x01, 0x10, 0x40, 0];
    asks_twice(client, &request)
        && late_requests_are_answered(&request, client, server)
        && !client.armed()
}

/// Whether the next event is that a channel's machine closed it.
fn is_closed_by_its_machine(channels: &mut Channels) -> bool {
    matches!(
        channels.next_event(),
        Some(ChannelEvent::Closed(_, _, CloseReason::Ertm(_)))
    )
}

/// Whether there is a check word once a channel is agreed, and also once its machine closed it.
fn has_check_words(client: &mut Channels, server: &mut Channels, own: Cid) -> bool {
    let reject = [4, 0, 0x40, 0, 0x0D, 0, 0x10, 0xD4];
    !client.has_fcs(own.get())
        && are_agreed(client, server)
        && client.has_fcs(own.get())
        && hears(client, own.get(), &reject, None)
        && is_closed_by_its_machine(client)
        && client.has_fcs(own.get())
}

/// Whether there is one until the end of the channel is answered.
fn ends_with_check_words(client: &mut Channels, server: &mut Channels, own: Cid) -> bool {
    passes(client, server, None)
        && client.has_fcs(own.get())
        && passes(server, client, None)
        && !client.has_fcs(own.get())
}

/// Whether the next event is that both sides of a channel found no options.
fn is_not_agreed(channels: &mut Channels) -> bool {
    matches!(
        channels.next_event(),
        Some(ChannelEvent::Closed(_, _, CloseReason::NoAgreement))
    )
}

/// Asks for the end of a channel where no event waits; whether it did.
#[tactic(auto, using(l2cap_channels::proofs::Giving::no_events))]
fn leaves(channels: &mut Channels, own: Cid) -> bool {
    if channels.next_event().is_some() {
        return false;
    }
    channels.disconnect(own);
    true
}

/// Whether a channel is granted, its options are asked for, and then its end.
fn asks_and_leaves(client: &mut Channels, own: Cid) -> bool {
    let granted = [12, 0, 1, 0, 3, 1, 8, 0, 0x40, 0, 0x40, 0, 0, 0, 0, 0];
    let options = [12, 0, 1, 0, 4, 2, 8, 0, 0x40, 0, 0, 0, 1, 2, 0xA0, 2];
    let end = [8, 0, 1, 0, 6, 3, 4, 0, 0x40, 0, 0x40, 0];
    gives(client, &[8, 0, 1, 0, 2, 1, 4, 0, 1, 0, 0x40, 0])
        && answers(client, &granted, &options)
        && leaves(client, own)
        && gives(client, &end)
}

/// Whether a channel that its host leaves is closed by other options that the peer suggests, with nothing said.
fn leaves_without_bargaining(client: &mut Channels) -> bool {
    let suggestion = [14, 0, 1, 0, 5, 2, 10, 0, 0x40, 0, 0, 0, 1, 0, 1, 2, 0x30, 0];
    match asks(client, DISCOVERY) {
        Some(own) => {
            asks_and_leaves(client, own)
                && hears(client, 0x0001, &suggestion, None)
                && is_not_agreed(client)
                && is_silent(client)
        }
        None => false,
    }
}

/// What one host does.
#[derive(Clone, Copy)]
enum Course {
    AsksInVain,
    AnswersSignals,
    LeavesWithoutBargaining,
}

/// Whether the channels of a host go through a course.
fn goes_through(channels: &mut Channels, course: Course) -> bool {
    match course {
        Course::AsksInVain => asks_in_vain(channels),
        Course::AnswersSignals => questions_are_answered(channels)
            && options_are_answered(channels),
        Course::LeavesWithoutBargaining => leaves_without_bargaining(channels),
    }
}

/// Whether the channels of a new host do.
fn is_gone_through(alloc: Global, course: Course) -> bool {
    match channels(alloc, 4, matches!(course, Course::AnswersSignals)) {
        Some(mut channels) => goes_through(&mut channels, course),
        None => false,
    }
}

#[test]
fn a_channel_is_asked_for_as_often_as_may_be(rt: HostRuntime) {
    assert!(rt; is_gone_through(rt.alloc(), Course::AsksInVain));
}

#[test]
fn signalling_at_an_open_link(rt: HostRuntime) {
    assert!(rt; is_gone_through(rt.alloc(), Course::AnswersSignals));
}

#[test]
fn a_channel_that_is_left_is_not_bargained_over(rt: HostRuntime) {
    assert!(rt; is_gone_through(rt.alloc(), Course::LeavesWithoutBargaining));
}

/// What two hosts do, of which the client asked for a channel.
#[derive(Clone, Copy)]
enum Dialog {
    PassAnSdu,
    GiveUp,
    KeepCheckWords,
}

/// Whether two hosts go through a dialog on the channel of that endpoint.
fn go_through(client: &mut Channels, server: &mut Channels, own: Cid, dialog: Dialog) -> bool {
    match dialog {
        Dialog::PassAnSdu => pass_an_sdu(client, server, own),
        Dialog::GiveUp => give_up(client, server),
        Dialog::KeepCheckWords => {
            has_check_words(client, server, own) && ends_with_check_words(client, server, own)
        }
    }
}

/// Whether a client that asks for a channel goes through a dialog with that server.
fn is_gone_through_by(
    client: &mut Channels,
    server: &mut Channels,
    psm: u16,
    dialog: Dialog,
) -> bool {
    match asks(client, psm) {
        Some(own) => go_through(client, server, own, dialog),
        None => false,
    }
}

/// Whether a new client does, which sends a thing so often at most.
fn is_gone_through_with(
    alloc: Global,
    server: &mut Channels,
    tries: u8,
    psm: u16,
    dialog: Dialog,
) -> bool {
    match channels(alloc, tries, false) {
        Some(mut client) => is_gone_through_by(&mut client, server, psm, dialog),
        None => false,
    }
}

/// Whether two new hosts do.
fn are_gone_through(alloc: Global, tries: u8, psm: u16, dialog: Dialog) -> bool {
    match channels(alloc, tries, true) {
        Some(mut server) => is_gone_through_with(alloc, &mut server, tries, psm, dialog),
        None => false,
    }
}

#[test]
fn two_ends_pass_sdus(rt: HostRuntime) {
    assert!(rt; are_gone_through(rt.alloc(), 4, DISCOVERY, Dialog::PassAnSdu));
    assert!(rt; are_gone_through(rt.alloc(), 4, PUSH, Dialog::PassAnSdu));
}

#[test]
fn two_ends_with_a_timer(rt: HostRuntime) {
    assert!(rt; are_gone_through(rt.alloc(), 2, PUSH, Dialog::GiveUp));
}

#[test]
fn check_words_go_on_to_the_end(rt: HostRuntime) {
    assert!(rt; are_gone_through(rt.alloc(), 4, PUSH, Dialog::KeepCheckWords));
}
