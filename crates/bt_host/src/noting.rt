//! An end that notes how far it came with what its channels limit.

ghost use Rattle.std.specs.Prelude.{◌≡◌, OnOk};
ghost use Rattle.channel_model.specs.Calls.{window_used};
ghost use Rattle.bt_host.specs.Noting.{Noted, unnoted, notes};

use crate::end::End;
use bt_base::NoMemory;
use channel_model::ChannelEvent;
use l2cap_channels::Channels;
use std::marker::Model;

/// An end, and the greatest numbers that were held so far: the frames of one enhanced channel that were sent and not
/// acknowledged, and the credits of the multiplexer. A clause sees these.
#[derive(Drop)]
pub(crate) struct Noting<E> {
    pub(crate) end: E,
    pub(crate) window: u8,
    pub(crate) credits: u16,
}

impl<E> Model for Noting<E> {
    ghost use Rattle.bt_host.specs.Noting.{Noted};

    ghost Value = { Noted E };

    ghost view = { λ noting. record { end = noting.end; window = noting.window; credits = noting.credits } };
}

impl<E> Noting<E> {
    /// An end that held nothing yet.
    pub(crate) fn new(end: E) -> Noting<E>
        ensures { result ≡ unnoted end }
    {
        Noting {
            end,
            window: 0,
            credits: 0,
        }
    }
}

impl<P, E: End<P>> End<P> for Noting<E> {
    ghost use Rattle.std.proofs.Common.{ap};
    ghost use Rattle.bt_host.specs.Noting.{Noted, with_end, noting, noting_by};

    ghost State = { Noted E.State };

    ghost profile = { λ settings. noting E.credits_in (E.profile settings) };

    ghost is_server = { E.is_server };

    ghost pushing = { noting_by E.pushing };

    ghost is_sound = { λ noted port. E.is_sound noted.end port };

    ghost answers = { E.answers };

    ghost lacked = { E.lacked };

    fn link_up(&mut self, port: &P) {
        self.end.link_up(port);
    }

    fn link_down(&mut self, reason: u8, port: &mut P) -> Result<(), NoMemory> {
        self.end.link_down(reason, port)
    }

    fn link_failed(&mut self, status: u8, port: &P) {
        self.end.link_failed(status, port);
    }

    fn fired(&mut self, port: &P) {
        self.end.fired(port);
    }

    fn received(&mut self, own: u16, psm: u16, sdu: &[u8], port: &mut P) -> Result<(), NoMemory> {
        self.end.received(own, psm, sdu, port)
    }

    fn happened(
        &mut self,
        event: ChannelEvent,
        channels: &Channels,
        port: &mut P,
    ) -> Result<(), NoMemory> {
        self.end.happened(event, channels, port)
    }

    fn sent(&mut self, channels: &Channels, port: &P) {
        self.end.sent(channels, port);
        self.window = self.window.max(channels.window_used());
        self.credits = self.credits.max(self.end.credits());
    }

    fn step(&mut self, channels: &mut Channels, port: &mut P) -> Result<bool, NoMemory> {
        self.end.step(channels, port)
    }

    fn leaves_link(&self) -> bool {
        self.end.leaves_link()
    }

    fn wants_link(&self) -> bool {
        self.end.wants_link()
    }

    fn armed(&self) -> bool {
        self.end.armed()
    }

    ghost credits_in = { λ noted. E.credits_in noted.end };

    fn credits(&self) -> u16 {
        self.end.credits()
    }

    ghost joins = { E.joins };

    ghost lacks = { E.lacks };

    ghost policy_is = { E.policy_is };

    ghost told_alone = { λ settings all news noted aside. ap (λ s. with_end s noted) (E.told_alone settings all news noted.end aside) };

    ghost given_once = { λ noted port settings rest. ap (λ s. with_end s noted) (E.given_once noted.end port settings rest) };
}
