//! What stands above the channels of a host.

ghost use Rattle.std.specs.Prelude.{◌≡◌, ℕ, Bool, [], List, Option, IfOk, OnOk, OnErr};
ghost use Rattle.bt_base.specs.declared.settings.Settings.{Settings};
ghost use Rattle.channel_model.specs.Policies.{policy};
ghost use Rattle.l2cap_channels.specs.Machine.{with_channels};
ghost use Rattle.shelf_model.specs.world_model.specs.Machines.{News, Linked, Up, Down, Failed, TimerFired};
ghost use Rattle.shelf_model.specs.host_model.specs.Circumstances.{Circumstance};
ghost use Rattle.shelf_model.specs.host_model.specs.Profiles.{Profile, Stride};
ghost use Rattle.bt_host.specs.Calls.{Does, JoinAnswers};
ghost use Rattle.bt_host.specs.Uppers.{IsAside};

use bt_base::NoMemory;
use channel_model::ChannelEvent;
use l2cap_channels::Channels;
use push_terms::Outcome;

/// What stands above the channels of a host and works on a port `P`: a profile in code. Each call is that of the pure profile,
/// for some answers of the port.
///
/// A call that answers `NoMemory`, which comes only where the port found none, leaves the end as it may be: it is called no
/// more.
pub(crate) trait End<P>: Drop {
    /// What its profile is at a moment.
    ghost State: { Type 0 };

    /// Its profile, under settings of a host.
    ghost profile: { Settings → Profile State };

    /// Whether it is a server.
    ghost is_server: { Bool };

    /// What it is, for all that its port may answer from now on.
    ghost pushing: { Self → P → List Circumstance → State };

    /// What it needs of its port.
    ghost is_sound: { Self → P → Type 0 };

    /// The port gave these answers, one after the other, from one state to another.
    ghost answers: { P → List Circumstance → P → Type 0 };

    /// The port found no memory, from one state to another.
    ghost lacked: { P → P → Type 0 };

    /// A link is up.
    fn link_up(&mut self, port: &P)
        requires sound { is_sound self.old port.now }
        ensures is { (settings : Settings) (rest : List Circumstance) → (profile settings).told [] (Linked Up) (pushing self.old port.now rest) ≡ pushing self.new port.now rest }
        ensures sound { is_sound self.new port.now };

    /// The link went down, for this reason.
    fn link_down(&mut self, reason: u8, port: &mut P) -> Result<(), NoMemory>
        requires sound { is_sound self.old port.old }
        ensures does { OnOk result ((settings : Settings) → Does answers (λ rest. (profile settings).told [] (Linked (Down reason)) (pushing self.old port.old rest)) (pushing self.new port.new) port.old port.new) }
        ensures sound { OnOk result (is_sound self.new port.new) }
        ensures lacked { OnErr result (lacked port.old port.new) };

    /// A link that was asked for was not made, with this status.
    fn link_failed(&mut self, status: u8, port: &P)
        requires sound { is_sound self.old port.now }
        ensures is { (settings : Settings) (rest : List Circumstance) → (profile settings).told [] (Failed status) (pushing self.old port.now rest) ≡ pushing self.new port.now rest }
        ensures sound { is_sound self.new port.now };

    /// The timer of its host fired.
    fn fired(&mut self, port: &P)
        requires sound { is_sound self.old port.now }
        ensures is { (settings : Settings) (rest : List Circumstance) → (profile settings).told [] TimerFired (pushing self.old port.now rest) ≡ pushing self.new port.now rest }
        ensures sound { is_sound self.new port.now };

    /// An SDU came in on the channel of the own endpoint `own`, which is for the multiplexer `psm`.
    fn received(&mut self, own: u16, psm: u16, sdu: &[u8], port: &mut P) -> Result<(), NoMemory>
        requires sound { is_sound self.old port.old }
        ensures does { OnOk result ((settings : Settings) → Does answers (λ rest. (profile settings).received own psm sdu.now (pushing self.old port.old rest)) (pushing self.new port.new) port.old port.new) }
        ensures sound { OnOk result (is_sound self.new port.new) }
        ensures lacked { OnErr result (lacked port.old port.new) };

    /// This happened to the channels.
    fn happened(
        &mut self,
        event: ChannelEvent,
        channels: &Channels,
        port: &mut P,
    ) -> Result<(), NoMemory>
        requires sound { is_sound self.old port.old }
        ensures does { OnOk result ((settings : Settings) → Does answers (λ rest. (profile settings).happened event channels.now.channels (pushing self.old port.old rest)) (pushing self.new port.new) port.old port.new) }
        ensures sound { OnOk result (is_sound self.new port.new) }
        ensures lacked { OnErr result (lacked port.old port.new) };

    /// An SDU that waits no longer in its channel is sent.
    fn sent(&mut self, channels: &Channels, port: &P)
        requires sound { is_sound self.old port.now }
        ensures is { (settings : Settings) (rest : List Circumstance) → (profile settings).sent channels.now.channels (pushing self.old port.now rest) ≡ pushing self.new port.now rest }
        ensures sound { is_sound self.new port.now };

    /// Takes its next step, and answers whether it is to be asked again.
    fn step(&mut self, channels: &mut Channels, port: &mut P) -> Result<bool, NoMemory>
        requires sound { is_sound self.old port.old }
        requires told { channels.old.channels.events ≡ [] }
        ensures does { IfOk result (λ more. (settings : Settings) → Does answers (λ rest. (profile settings).steps channels.old.channels (pushing self.old port.old rest)) (λ rest. record { channels = channels.new.channels; profile = pushing self.new port.new rest; more = more }) port.old port.new) }
        ensures channels { channels.new ≡ with_channels channels.old channels.new.channels }
        ensures sound { OnOk result (is_sound self.new port.new) }
        ensures lacked { OnErr result (lacked port.old port.new) };

    /// Whether it ends the link that is up.
    fn leaves_link(&self) -> bool
        ensures { (settings : Settings) (port : P) (rest : List Circumstance) → result ≡ (profile settings).leaves_link (pushing self.now port rest) };

    /// Whether it wants a link.
    fn wants_link(&self) -> bool
        ensures { (settings : Settings) (port : P) (rest : List Circumstance) → result ≡ (profile settings).wants_link (pushing self.now port rest) };

    /// Whether something waits for the timer.
    fn armed(&self) -> bool
        ensures { (settings : Settings) (port : P) (rest : List Circumstance) → result ≡ (profile settings).armed (pushing self.now port rest) };

    /// How many credits it holds, in a state.
    ghost credits_in: { State → ℕ };

    /// How many credits its multiplexer holds.
    fn credits(&self) -> u16
        ensures { (port : P) (rest : List Circumstance) → result ≡ credits_in (pushing self.now port rest) };

    /// Lists of answers join.
    ghost joins: { JoinAnswers answers };

    /// Memory that is found wanting later was found wanting.
    ghost lacks: { (first mid last : P) (used : List Circumstance) → answers first used mid → lacked mid last → lacked first last };

    /// Its channels keep its policy.
    ghost policy_is: { (settings : Settings) → (profile settings).policy ≡ policy settings is_server };

    /// What it is told of links and its timer does not hang on what its port is to answer.
    ghost told_alone: { (settings : Settings) (all : List Circumstance) (news : News) (state : State) → IsAside news → (profile settings).told all news state ≡ (profile settings).told [] news state };

    /// It is what its port answers, and is given no more.
    ghost given_once: { (end : Self) (port : P) (settings : Settings) (rest : List Circumstance) → (profile settings).given rest (pushing end port rest) ≡ pushing end port rest };
}
