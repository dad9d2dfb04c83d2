//! What a host wishes of a channel.

ghost use Rattle.std.specs.Prelude.{◌≡◌};
ghost use Rattle.channel_model.specs.Asking.{first_options};
ghost use Rattle.l2cap_channels.specs.Machine.{policy_of};
ghost use Rattle.l2cap_channels.specs.Steps.{IsWish};

use crate::channels::Channels;
use bt_base::{Psm, Settings};
use l2cap_config::{Mode, ModeOption, Options, Wish};

/// The longest SDU on a channel for service discovery, in octets.
const DISCOVERY_MTU: u16 = 672;

/// The number of enhanced retransmission mode (Core 5.1, Volume 3 Part A, 5.4).
const ENHANCED: u8 = 3;

/// The options that are asked for first: those that are wished.
#[tactic(auto, using(crate::proofs::Agreeing::least_of_same))]
pub(crate) fn first_options(wish: &Wish) -> Options
    ensures { result ≡ first_options wish.now }
{
    let mut options = Options::none();
    options.mtu = Some(wish.mtu);
    options.mode = match wish.mode {
        Mode::Basic => None,
        Mode::Enhanced => Some(ModeOption {
            mode: ENHANCED,
            window: wish.window,
            tries: wish.tries,
            retransmit: 0,
            monitor: 0,
            mps: wish.mps,
        }),
    };
    options
}

impl Channels {
    /// What is wished of a channel of a multiplexer.
    pub(crate) fn wished(&self, psm: Psm) -> Wish
        ensures wish { result ≡ (policy_of self.now).wish psm }
        ensures fits { IsWish result }
    {
        let Settings {
            mtu,
            mps,
            window,
            tries,
            ..
        } = self.settings;
        let (mode, mtu) = match psm.get() {
            0x0001 => (Mode::Basic, DISCOVERY_MTU),
            0x0003 => (Mode::Basic, mtu),
            _ => (Mode::Enhanced, mtu),
        };
        Wish {
            mode,
            mtu,
            mps,
            window,
            tries,
        }
    }
}
