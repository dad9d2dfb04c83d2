//! All that moves between a host and its controller.

ghost use Rattle.std.specs.Prelude.{◌≡◌, ◌<◌, [], false, true, Ok, IfOk, OnOk, OnErr};
ghost use Rattle.radio_model.specs.Owed.{owes_many};
ghost use Rattle.radio_model.specs.Radio.{after_offer};
ghost use Rattle.radio_world.specs.Leaving.{in_radio, after_all};
ghost use Rattle.radio_world.specs.Counting.{one_if, GoesBy};
ghost use Rattle.radio_world.specs.Halves.{IsStillIn, IsSaidFirst, MayAllBeHeard, StaysPut, comes_count};
ghost use Rattle.radio_world.specs.Causes.{Blames};
ghost use Rattle.radio_world.specs.Shortages.{Lacks, Shortage};
ghost use Rattle.radio_world.specs.Breaking.{GoesBroken};

use crate::fault::WorldFault;
use crate::feeding::hand_over;
use crate::host::Host;
use crate::medium::{ACL_LIMIT, Medium};
use crate::recording::record;
use bt_base::{NoMemory, Sink};
use capture::{Entry, Flow};
use h4_framing::{Leading, first};
use push_terms::Side;

/// The longest packet that moves: an ACL packet with its header.
const LONGEST_UNIT: usize = 1026;

impl Medium {
    /// All packets that a host offers move to its controller. False where it offers none.
    pub(crate) fn move_out<P, H: Host<P>, T: Sink>(
        &mut self,
        side: Side,
        host: &mut H,
        port: &mut P,
        trace: &mut T,
    ) -> Result<bool, WorldFault>
        requires side { H.side ≡ side }
        requires sound { H.is_sound host.old port.old }
        ensures goes { IfOk result (λ moved. GoesBy (one_if moved) H.machine side H.answers self.old self.new (H.station host.old port.old) (H.station host.new port.new) port.old port.new (T.content trace.old) (T.content trace.new)) }
        ensures none { result ≡ Ok false → (H.station host.old port.old).out ≡ [] × (self.new ≡ self.old) × (H.station host.new port.new ≡ H.station host.old port.old) }
        ensures medium { OnOk result (self.new ≡ after_all side (H.station host.old port.old).out self.old) }
        ensures held { OnOk result (H.held host.new ≡ H.held host.old) }
        ensures sound { OnOk result (H.is_sound host.new port.new) }
        ensures blames { Blames (T.faults trace.old) (T.faults trace.new) result }
        ensures lacks { Lacks (T.shortages trace.old) (T.shortages trace.new) (Shortage H.lacked side (H.station host.old port.old).out self.old port.old port.new (T.content trace.old) (T.content trace.new)) result }
        ensures breaks { OnErr result (GoesBroken H.machine side H.answers H.lacked H.station self.old (H.station host.old port.old) port.old port.new (T.content trace.old) (T.content trace.new)) }
    {
        let offered = host.out();
        let count = offered.len();
        if count == 0 {
            return Ok(false);
        }
        self.take_all(side, offered, trace)?;
        host.taken(count, port)?;
        Ok(true)
    }

    /// Moves the first packet that a controller has for its host into it. False where it has none.
    pub(crate) fn move_into<P, H: Host<P>, T: Sink>(
        &mut self,
        side: Side,
        host: &mut H,
        port: &mut P,
        trace: &mut T,
    ) -> Result<bool, WorldFault>
        requires side { H.side ≡ side }
        requires none_held { H.held host.old ≡ [] }
        requires heard { MayAllBeHeard H.machine side self.old (H.station host.old port.old) }
        requires sound { H.is_sound host.old port.old }
        ensures goes { IfOk result (λ moved. GoesBy (one_if moved) H.machine side H.answers self.old self.new (H.station host.old port.old) (H.station host.new port.new) port.old port.new (T.content trace.old) (T.content trace.new)) }
        ensures still { result ≡ Ok false → IsStillIn side self.old × (self.new ≡ self.old) × (H.station host.new port.new ≡ H.station host.old port.old) }
        ensures said { OnErr result (IsSaidFirst side self.old.radio (H.station host.old port.old) (H.station host.new port.new) port.old port.new (T.content trace.old) (T.content trace.new)) }
        ensures shorter { result ≡ Ok true → comes_count side self.new < comes_count side self.old }
        ensures none_held { OnOk result (H.held host.new ≡ []) }
        ensures sound { OnOk result (H.is_sound host.new port.new) }
        ensures blames { Blames (T.faults trace.old) (T.faults trace.new) result }
        ensures lacks { Lacks (T.shortages trace.old) (T.shortages trace.new) (H.lacked port.old port.new) result }
        ensures breaks { OnErr result (GoesBroken H.machine side H.answers H.lacked H.station self.old (H.station host.old port.old) port.old port.new (T.content trace.old) (T.content trace.new)) }
    {
        let mut room = [0; LONGEST_UNIT];
        let Some(n) = self.radio.hand(side, &mut room) else {
            return Ok(false);
        };
        let octets = &room[..n];
        let Leading::Whole(unit, _) = first(octets, ACL_LIMIT) else {
            unreachable!()
        };
        let entry = Entry::Moved {
            side,
            flow: Flow::Into,
            unit,
        };
        record(&entry, trace)?;
        hand_over(host, octets, self.chunk, port)?;
        Ok(true)
    }

    /// Moves all that a controller has for its host into it. False where it has nothing.
    fn move_all_into<P, H: Host<P>, T: Sink>(
        &mut self,
        side: Side,
        host: &mut H,
        port: &mut P,
        trace: &mut T,
    ) -> Result<bool, WorldFault>
        requires side { H.side ≡ side }
        requires none_held { H.held host.old ≡ [] }
        requires heard { MayAllBeHeard H.machine side self.old (H.station host.old port.old) }
        requires sound { H.is_sound host.old port.old }
        ensures goes { IfOk result (λ moved. GoesBy (one_if moved) H.machine side H.answers self.old self.new (H.station host.old port.old) (H.station host.new port.new) port.old port.new (T.content trace.old) (T.content trace.new)) }
        ensures still { OnOk result (IsStillIn side self.new) }
        ensures none { result ≡ Ok false → (self.new ≡ self.old) × (H.station host.new port.new ≡ H.station host.old port.old) }
        ensures none_held { OnOk result (H.held host.new ≡ []) }
        ensures sound { OnOk result (H.is_sound host.new port.new) }
        ensures blames { Blames (T.faults trace.old) (T.faults trace.new) result }
        ensures lacks { Lacks (T.shortages trace.old) (T.shortages trace.new) (H.lacked port.old port.new) result }
        ensures breaks { OnErr result (GoesBroken H.machine side H.answers H.lacked H.station self.old (H.station host.old port.old) port.old port.new (T.content trace.old) (T.content trace.new)) }
    {
        let mut moved = false;
        while self.move_into(side, host, port, trace)? {
            moved = true;
        }
        Ok(moved)
    }

    /// A controller gives back the packets of its host that it took.
    fn give_back(&mut self, side: Side) -> Result<(), NoMemory>
        ensures ok { OnOk result (self.new ≡ in_radio (after_offer side self.old.radio) self.old) }
        ensures full { OnErr result (owes_many 16 self.old.radio ≡ true) }
    {
        self.radio.offered(side)?;
        Ok(())
    }

    /// All that a host offers moves to its controller, which gives it back at once, and all that the
    /// controller has for the host then moves into it. False where nothing moved.
    pub(crate) fn exchange<P, H: Host<P>, T: Sink>(
        &mut self,
        side: Side,
        host: &mut H,
        port: &mut P,
        trace: &mut T,
    ) -> Result<bool, WorldFault>
        requires side { H.side ≡ side }
        requires none_held { H.held host.old ≡ [] }
        requires heard { MayAllBeHeard H.machine side self.old (H.station host.old port.old) }
        requires sound { H.is_sound host.old port.old }
        ensures goes { IfOk result (λ moved. GoesBy (one_if moved) H.machine side H.answers self.old self.new (H.station host.old port.old) (H.station host.new port.new) port.old port.new (T.content trace.old) (T.content trace.new)) }
        ensures still { OnOk result (IsStillIn side self.new) }
        ensures none { result ≡ Ok false → StaysPut side self.old self.new (H.station host.old port.old) (H.station host.new port.new) }
        ensures none_held { OnOk result (H.held host.new ≡ []) }
        ensures sound { OnOk result (H.is_sound host.new port.new) }
        ensures blames { Blames (T.faults trace.old) (T.faults trace.new) result }
        ensures lacks { Lacks (T.shortages trace.old) (T.shortages trace.new) (Shortage H.lacked side (H.station host.old port.old).out self.old port.old port.new (T.content trace.old) (T.content trace.new)) result }
        ensures breaks { OnErr result (GoesBroken H.machine side H.answers H.lacked H.station self.old (H.station host.old port.old) port.old port.new (T.content trace.old) (T.content trace.new)) }
    {
        let left = self.move_out(side, host, port, trace)?;
        self.give_back(side)?;
        let came = self.move_all_into(side, host, port, trace)?;
        Ok(left | came)
    }
}
