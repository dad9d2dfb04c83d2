//! A script, word by word.

ghost use Rattle.std.specs.Prelude.{◌≡◌, ◌≤◌, ◌+◌, ◌^◌, ◌∷◌, [], true, false, ◌<◌, List, replicate, length, OnOk, OnErr};
ghost use Rattle.std.specs.List.{AllByRecursion};
ghost use Rattle.bt_base.specs.Streams.{gained, GainedFront};
ghost use Rattle.push_terms.specs.Words.{IsWord};
ghost use Rattle.push_terms.specs.declared.word.Side.TheVariants as sides;
ghost use Rattle.capture.specs.Entries.{IsEntry, capture_octets};
ghost use Rattle.capture.specs.Air.{words_of};
ghost use Rattle.room_laws.specs.rest_laws.specs.Premises.{AreOrderly};
ghost use Rattle.radio_model.specs.Radio.{found};
ghost use Rattle.radio_world.specs.Turning.{can_be_done};
ghost use Rattle.radio_world.specs.Standing.{Stands, last_ended, last_entries, all_outcomes};
ghost use Rattle.room_laws.specs.Rooms.{OwesNoneBack};
ghost use Rattle.radio_world.specs.Causes.{Blames};
ghost use Rattle.radio_world.specs.Shortages.{LacksByTrace};
ghost use Rattle.radio_world.specs.Calls.{AdvancesAt, AreReached, BrokenAt, LacksAt, both, ports_of};

use crate::fault::WorldFault;
use crate::host::{Client, Host};
use crate::scene::Scene;
use bt_base::{NoMemory, Sink};
use push_script::Runs;
use push_terms::{Outcome, Word};

impl Scene {
    /// Lets both hosts start and begins the first push: all moves that can, and the world stands then.
    ///
    /// It needs what a run of the pure world led to. `TraceFault` where the trace fails, and
    /// `NoMemory` where none could be had.
    pub(crate) fn start<P, A: Client<P>, Q, B: Host<Q>, T: Sink>(
        &mut self,
        a: &mut A,
        shelf: &mut P,
        b: &mut B,
        inbox: &mut Q,
        trace: &mut T,
    ) -> Result<(), WorldFault>
        requires orderly { AreOrderly A.Host.machine B.machine }
        requires reached { AreReached A.Host B.Host (both a.old b.old self.old) shelf.old inbox.old }
        requires none_back { OwesNoneBack self.old.medium.radio }
        requires sides { (A.Host.side ≡ sides.A) × (B.side ≡ sides.B) }
        requires none_held { (A.Host.held a.old ≡ []) × (B.held b.old ≡ []) }
        requires sound { A.Host.is_sound a.old shelf.old × B.is_sound b.old inbox.old }
        ensures advances { OnOk result (AdvancesAt A.Host B.Host [] (both a.old b.old self.old) (ports_of T.Sink shelf.old inbox.old trace.old) (both a.new b.new self.new) (ports_of T.Sink shelf.new inbox.new trace.new)) }
        ensures stands { OnOk result (Stands A.Host.machine B.machine self.new (A.Host.station a.new shelf.new) (B.station b.new inbox.new)) }
        ensures none_held { OnOk result ((A.Host.held a.new ≡ []) × (B.held b.new ≡ [])) }
        ensures sound { OnOk result (A.Host.is_sound a.new shelf.new × B.is_sound b.new inbox.new) }
        ensures blames { Blames (T.faults trace.old) (T.faults trace.new) result }
        ensures lacks { LacksAt A.Host B.Host [] (both a.old b.old self.old) (ports_of T.Sink shelf.old inbox.old trace.old) (ports_of T.Sink shelf.new inbox.new trace.new) result }
        ensures breaks { OnErr result (BrokenAt A.Host B.Host [] (both a.old b.old self.old) (ports_of T.Sink shelf.old inbox.old trace.old) (ports_of T.Sink shelf.new inbox.new trace.new)) }
    {
        self.settle(a, shelf, b, inbox, trace)?;
        Ok(())
    }

    /// Whether as many words were turned as can be counted.
    fn is_count_full(&self) -> bool
        ensures full { result ≡ true → self.now.turned + 1 ≡ 2 ^ 64 }
        ensures room { result ≡ false → self.now.turned + 1 < 2 ^ 64 }
    {
        self.turned == u64::MAX
    }

    /// So many words are turned that find nothing to do. `NoMemory` where more than 2^64 - 1 words
    /// would have been turned: then all is as it was.
    fn pass_over(&mut self, count: u32) -> Result<(), NoMemory>
        ensures ok { OnOk result (self.new ≡ record self.old { turned = self.old.turned + count }) }
        ensures full { OnErr result (2 ^ 64 ≤ self.old.turned + count) }
    {
        let Some(turned) = self.turned.checked_add(u64::from(count)) else {
            return Err(NoMemory);
        };
        self.turned = turned;
        Ok(())
    }

    /// Turns a word that finds something to do: it acts, and all moves that can.
    ///
    /// It needs what stands, and that the word finds something that can be done. It refuses as
    /// `turn_times` does.
    fn turn_found<P, A: Client<P>, Q, B: Host<Q>, T: Sink>(
        &mut self,
        word: Word,
        a: &mut A,
        shelf: &mut P,
        b: &mut B,
        inbox: &mut Q,
        trace: &mut T,
    ) -> Result<(), WorldFault>
        requires orderly { AreOrderly A.Host.machine B.machine }
        requires stands { Stands A.Host.machine B.machine self.old (A.Host.station a.old shelf.old) (B.station b.old inbox.old) }
        requires finds { (rest_a : List A.Host.Answer) (rest_b : List B.Answer) → can_be_done A.Host.machine B.machine (found word self.old.medium.radio) self.old.pushes ((A.Host.station a.old shelf.old).upper rest_a) ((B.station b.old inbox.old).upper rest_b) ≡ true }
        requires word { IsWord word }
        requires sides { (A.Host.side ≡ sides.A) × (B.side ≡ sides.B) }
        requires none_held { (A.Host.held a.old ≡ []) × (B.held b.old ≡ []) }
        requires sound { A.Host.is_sound a.old shelf.old × B.is_sound b.old inbox.old }
        ensures advances { OnOk result (AdvancesAt A.Host B.Host (word ∷ []) (both a.old b.old self.old) (ports_of T.Sink shelf.old inbox.old trace.old) (both a.new b.new self.new) (ports_of T.Sink shelf.new inbox.new trace.new)) }
        ensures stands { OnOk result (Stands A.Host.machine B.machine self.new (A.Host.station a.new shelf.new) (B.station b.new inbox.new)) }
        ensures none_held { OnOk result ((A.Host.held a.new ≡ []) × (B.held b.new ≡ [])) }
        ensures sound { OnOk result (A.Host.is_sound a.new shelf.new × B.is_sound b.new inbox.new) }
        ensures blames { Blames (T.faults trace.old) (T.faults trace.new) result }
        ensures lacks { LacksAt A.Host B.Host (word ∷ []) (both a.old b.old self.old) (ports_of T.Sink shelf.old inbox.old trace.old) (ports_of T.Sink shelf.new inbox.new trace.new) result }
        ensures breaks { OnErr result (BrokenAt A.Host B.Host (word ∷ []) (both a.old b.old self.old) (ports_of T.Sink shelf.old inbox.old trace.old) (ports_of T.Sink shelf.new inbox.new trace.new)) }
    {
        if self.is_count_full() {
            return Err(WorldFault::NoMemory);
        }
        self.do_word(word, a, shelf, b, inbox, trace)?;
        self.settle(a, shelf, b, inbox, trace)?;
        Ok(())
    }

    /// Turns the same word so many times. Where it finds something to do it stands in the trace
    /// first, then it acts, and all moves that can; from where it finds nothing on it is counted
    /// alone, and at once.
    ///
    /// It needs what stands: `settle` leaves it so, and each turn. `TraceFault` where the trace fails,
    /// `NoMemory` where none could be had, and where more than 2^64 - 1 words would have been turned.
    pub(crate) fn turn_times<P, A: Client<P>, Q, B: Host<Q>, T: Sink>(
        &mut self,
        count: u32,
        word: Word,
        a: &mut A,
        shelf: &mut P,
        b: &mut B,
        inbox: &mut Q,
        trace: &mut T,
    ) -> Result<(), WorldFault>
        requires orderly { AreOrderly A.Host.machine B.machine }
        requires stands { Stands A.Host.machine B.machine self.old (A.Host.station a.old shelf.old) (B.station b.old inbox.old) }
        requires word { IsWord word }
        requires sides { (A.Host.side ≡ sides.A) × (B.side ≡ sides.B) }
        requires none_held { (A.Host.held a.old ≡ []) × (B.held b.old ≡ []) }
        requires sound { A.Host.is_sound a.old shelf.old × B.is_sound b.old inbox.old }
        ensures turns { OnOk result (AdvancesAt A.Host B.Host (replicate count word) (both a.old b.old self.old) (ports_of T.Sink shelf.old inbox.old trace.old) (both a.new b.new self.new) (ports_of T.Sink shelf.new inbox.new trace.new)) }
        ensures stands { OnOk result (Stands A.Host.machine B.machine self.new (A.Host.station a.new shelf.new) (B.station b.new inbox.new)) }
        ensures none_held { OnOk result ((A.Host.held a.new ≡ []) × (B.held b.new ≡ [])) }
        ensures sound { OnOk result (A.Host.is_sound a.new shelf.new × B.is_sound b.new inbox.new) }
        ensures blames { Blames (T.faults trace.old) (T.faults trace.new) result }
        ensures lacks { LacksAt A.Host B.Host (replicate count word) (both a.old b.old self.old) (ports_of T.Sink shelf.old inbox.old trace.old) (ports_of T.Sink shelf.new inbox.new trace.new) result }
        ensures breaks { OnErr result (BrokenAt A.Host B.Host (replicate count word) (both a.old b.old self.old) (ports_of T.Sink shelf.old inbox.old trace.old) (ports_of T.Sink shelf.new inbox.new trace.new)) }
    {
        for done in 0..count {
            if !self.finds(word, a, b) {
                self.pass_over(count - done)?;
                return Ok(());
            }
            self.turn_found(word, a, shelf, b, inbox, trace)?;
        }
        Ok(())
    }

    /// Turns all words of a script. It needs, and refuses, as `turn_times`.
    pub(crate) fn turn_all<P, A: Client<P>, Q, B: Host<Q>, T: Sink>(
        &mut self,
        script: &Runs,
        a: &mut A,
        shelf: &mut P,
        b: &mut B,
        inbox: &mut Q,
        trace: &mut T,
    ) -> Result<(), WorldFault>
        requires orderly { AreOrderly A.Host.machine B.machine }
        requires stands { Stands A.Host.machine B.machine self.old (A.Host.station a.old shelf.old) (B.station b.old inbox.old) }
        requires sides { (A.Host.side ≡ sides.A) × (B.side ≡ sides.B) }
        requires none_held { (A.Host.held a.old ≡ []) × (B.held b.old ≡ []) }
        requires sound { A.Host.is_sound a.old shelf.old × B.is_sound b.old inbox.old }
        ensures turns { OnOk result (AdvancesAt A.Host B.Host (words_of script.now) (both a.old b.old self.old) (ports_of T.Sink shelf.old inbox.old trace.old) (both a.new b.new self.new) (ports_of T.Sink shelf.new inbox.new trace.new)) }
        ensures stands { OnOk result (Stands A.Host.machine B.machine self.new (A.Host.station a.new shelf.new) (B.station b.new inbox.new)) }
        ensures none_held { OnOk result ((A.Host.held a.new ≡ []) × (B.held b.new ≡ [])) }
        ensures sound { OnOk result (A.Host.is_sound a.new shelf.new × B.is_sound b.new inbox.new) }
        ensures blames { Blames (T.faults trace.old) (T.faults trace.new) result }
        ensures lacks { LacksAt A.Host B.Host (words_of script.now) (both a.old b.old self.old) (ports_of T.Sink shelf.old inbox.old trace.old) (ports_of T.Sink shelf.new inbox.new trace.new) result }
        ensures breaks { OnErr result (BrokenAt A.Host B.Host (words_of script.now) (both a.old b.old self.old) (ports_of T.Sink shelf.old inbox.old trace.old) (ports_of T.Sink shelf.new inbox.new trace.new)) }
    {
        for i in 0..script.len() {
            let Some((count, word)) = script.at(i) else {
                unreachable!()
            };
            self.turn_times(count, word, a, shelf, b, inbox, trace)?;
        }
        Ok(())
    }

    /// Ends the push that goes on, if one does: with what came of it, or else with the script.
    fn end_last<T: Sink>(&mut self, came: Option<Outcome>, trace: &mut T) -> Result<(), WorldFault>
        ensures scene { OnOk result (self.new ≡ record self.old { pushes = last_ended came self.old.pushes }) }
        ensures written { OnOk result (T.content trace.new ≡ gained (T.content trace.old) (capture_octets (last_entries came self.old.pushes))) }
        ensures entries { AllByRecursion IsEntry (last_entries came self.old.pushes) }
        ensures blames { Blames (T.faults trace.old) (T.faults trace.new) result }
        ensures lacks { LacksByTrace (T.shortages trace.old) (T.shortages trace.new) result }
        ensures front { GainedFront (T.content trace.old) (T.content trace.new) (capture_octets (last_entries came self.old.pushes)) }
    {
        if !self.pushes.going() {
            return Ok(());
        }
        let outcome = came.unwrap_or(Outcome::ScriptEnded);
        self.end(outcome, trace)?;
        Ok(())
    }

    /// The script has ended: so has the push that goes on, with what came of it already or else with
    /// the script, and all that did not begin.
    pub(crate) fn finish<T: Sink>(
        &mut self,
        came: Option<Outcome>,
        trace: &mut T,
    ) -> Result<(), WorldFault>
        ensures outcomes { OnOk result (self.new.pushes.outcomes ≡ all_outcomes (last_ended came self.old.pushes)) }
        ensures each { OnOk result (length self.new.pushes.outcomes ≡ length self.old.pushes.names) }
        ensures medium { OnOk result (self.new.medium ≡ self.old.medium) }
        ensures written { OnOk result (T.content trace.new ≡ gained (T.content trace.old) (capture_octets (last_entries came self.old.pushes))) }
        ensures entries { AllByRecursion IsEntry (last_entries came self.old.pushes) }
        ensures blames { Blames (T.faults trace.old) (T.faults trace.new) result }
        ensures lacks { LacksByTrace (T.shortages trace.old) (T.shortages trace.new) result }
        ensures front { GainedFront (T.content trace.old) (T.content trace.new) (capture_octets (last_entries came self.old.pushes)) }
    {
        self.end_last(came, trace)?;
        self.pushes.close();
        Ok(())
    }
}
