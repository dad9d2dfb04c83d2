//! What stands above the line of a tiny host.

ghost use Rattle.std.specs.Prelude.{◌≡◌, ℕ, List, true, false, Some, is_some};
ghost use Rattle.push_terms.specs.declared.word.Side.{Side};
ghost use Rattle.push_terms.specs.declared.word.Side.TheVariants.{B};
ghost use Rattle.line_laws.specs.world_model.specs.Machines.{Upper};
ghost use Rattle.line_laws.specs.station_laws.specs.Seen.{role_of};
ghost use Rattle.line_laws.specs.Seeing.{SaysOctets};
ghost use Rattle.radio_world.specs.settling_laws.specs.Weights.{SaysAtMost};
ghost use Rattle.tiny_hosts.specs.Minds.{Unasked, news_told, IsCounted};

use crate::told::Told;
use host_link::Role;
use push_terms::Outcome;

/// How many octets a PDU has that a mind says: its header of four, and two.
pub const PDU: usize = 6;

/// A machine in code that hears news and says PDUs of six octets. It has no port.
pub trait Mind: Drop {
    /// The machine.
    ghost machine: { Upper Self Unasked };

    /// Which of the two hosts it is above.
    ghost side: { Side };

    /// How many PDUs it heard.
    ghost count: { Self → ℕ };

    /// A mind that has heard nothing.
    fn new() -> Self
        ensures { result ≡ machine.first };

    /// What its host is.
    fn role() -> Role
        ensures { result ≡ role_of side };

    /// Hears what happened.
    fn hear(&mut self, told: Told<'_>)
        ensures { (answers : List Unasked) → self.new ≡ machine.hear answers (news_told told.entry) self.old };

    /// Whether it has a PDU to say.
    fn has_pdu(&self) -> bool
        ensures { result ≡ is_some (machine.next self.now) };

    /// Says its next PDU. It needs one.
    fn say(&mut self) -> [u8; PDU]
        requires { is_some (machine.next self.old) ≡ true }
        ensures { machine.next self.old ≡ Some (result, self.new) };

    /// Whether it asks for a link.
    fn wants_link(&self) -> bool
        ensures { result ≡ machine.wants_link self.now };

    /// Whether it ends the link that is up, once it has said all.
    fn leaves_link(&self) -> bool
        ensures { result ≡ machine.leaves_link self.now };

    /// Whether something waits for its timer.
    fn armed(&self) -> bool
        ensures { result ≡ machine.armed self.now };

    /// Whether its channel of that number has a check word.
    fn has_fcs(&self, channel: u16) -> bool
        ensures { result ≡ machine.has_check self.now channel };

    /// Whether no push goes on.
    fn idle(&self) -> bool
        ensures { result ≡ machine.is_idle self.now };

    /// What came of the last push, once that is fixed.
    fn outcome(&self) -> Option<Outcome>
        ensures { result ≡ machine.outcome self.now };

    /// Whether the push that goes on can still be cancelled.
    fn may_cancel(&self) -> bool
        ensures { result ≡ machine.may_cancel self.now };

    /// How many PDUs it heard. The number stands still at the greatest one.
    fn heard(&self) -> u16
        ensures { result ≡ count self.now };

    /// No push goes on at first.
    ghost begins_idle: { machine.is_idle machine.first ≡ true };

    /// Host b asks for no link.
    ghost called: { side ≡ B → (mind : Self) → machine.wants_link mind ≡ false };

    /// It says octets.
    ghost octets: { SaysOctets machine };

    /// With each thing that it hears it has one PDU more to say at most.
    ghost one_more: { SaysAtMost 1 machine };

    /// It never heard fewer PDUs.
    ghost counted: { IsCounted machine count };
}
