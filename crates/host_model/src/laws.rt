//! What the hosts promise.

ghost use Rattle.host_model.specs.Examples.{PushesBegin};
ghost use Rattle.host_model.specs.Laws.{HostsAreOrderly, HostsSayOctets, SetHostsAreOrderly, SettingsStay};
ghost use Rattle.host_model.specs.Profiles.{Profile};
ghost use Rattle.host_model.specs.Spelling.{OctetsAreRight};
ghost use Rattle.host_model.specs.Waiting.{ClientsWait, MoreChangesNothing};

/// Both hosts say PDUs alone that hosts take, and a client asks for one link a push.
pub fn hosts_are_orderly()
    ensures { HostsAreOrderly }
{}

/// So do they where they keep their settings, each as one machine.
#[tactic(auto, using(crate::proofs::Setting::set_hosts_are_orderly))]
pub fn set_hosts_are_orderly()
    ensures { SetHostsAreOrderly }
{}

/// What a host of any profile says are octets.
#[tactic(auto, using(crate::proofs::Setting::hosts_say_octets))]
pub fn hosts_say_octets<P>()
    ensures { HostsSayOctets P }
{}

/// A host that keeps its settings is the host of these settings.
#[tactic(auto, using(crate::proofs::Setting::settings_stay))]
pub fn settings_stay<P>()
    ensures { SettingsStay P }
{}

/// The octets that a host says are those of the commands, SDUs and frames that its channels give.
pub fn octets_are_right()
    ensures { OctetsAreRight }
{}

/// A push begins as one works it out by hand: a link, and a channel to the service records, which the server
/// answers.
pub fn pushes_begin()
    ensures { PushesBegin }
{}

/// Where a profile waits after so many steps, any number of steps more changes nothing.
#[tactic(auto, using(crate::proofs::Stopping::more_is_same))]
pub fn more_changes_nothing<P>()
    ensures { (A : Profile P) → MoreChangesNothing A }
{}

/// A client waits, or has a PDU, within the steps that it is asked for, whatever its channels and its push are.
pub fn clients_wait()
    ensures { ClientsWait }
{}
