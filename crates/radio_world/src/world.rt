//! The simulated world: two hosts, their controllers and the air between them.

ghost use Rattle.std.specs.Prelude.{◌≡◌, ◌∷◌, ◌++◌, [], List, min, slice_get, IfOk};
ghost use Rattle.std.specs.Option.{option_map};
ghost use Rattle.radio_model.specs.Radio.{frames};
ghost use Rattle.push_terms.specs.Words.{IsWord};
ghost use Rattle.capture.specs.Air.{words_of};
ghost use Rattle.push_terms.specs.declared.word.Side.TheVariants as sides;
ghost use Rattle.room_laws.specs.rest_laws.specs.Premises.{AreOrderly};
ghost use Rattle.radio_world.specs.Calls.{new_world, ports_of, traced, MayStart, MayTurn, Turns, Finishes};

use crate::fault::WorldFault;
use crate::host::{Client, Host, Keeps, Measured};
use crate::medium::Medium;
use crate::ordering::Pushes;
use crate::scene::Scene;
use bt_base::{NoMemory, Sink};
use push_script::{Runs, Scenario};
use push_terms::{Outcome, Peaks, Way, Word};
use std::alloc::Global;
use std::marker::Model;

/// Two hosts with their controllers, the air between them, and the pushes of a scenario.
///
/// A clause sees both hosts, and what goes on between them: the radio, the peaks, the pushes, and
/// how many words were turned.
#[derive(Drop)]
pub struct World<A, B> {
    a: A,
    b: B,
    scene: Scene,
}

impl<A, B> Model for World<A, B> {
    ghost use Rattle.radio_world.specs.Both.{Both};

    ghost Value = { Both A B };

    ghost view = { λ world. record { a = world.a; b = world.b; scene = world.scene } };
}

impl<A: Drop, B: Drop> World<A, B> {
    /// The world of a scenario at its beginning, with two new hosts of its settings: nothing has happened
    /// but what they do by themselves as they begin, and no push was begun. `NoMemory` where what it
    /// reserves cannot be had.
    pub fn new<P, Q>(alloc: Global, scenario: &Scenario) -> Result<World<A, B>, NoMemory>
    where
        A: Host<P>,
        B: Host<Q>,
        requires sides { (A.side ≡ sides.A) × (B.side ≡ sides.B) }
        ensures made { IfOk result (λ world. world ≡ new_world A.Host B.Host scenario.now) }
        ensures may_start { IfOk result (λ world. (shelf : P) (inbox : Q) → A.is_unused shelf → B.is_unused inbox → MayStart A.Host B.Host world shelf inbox) }
    {
        let a = A::new(alloc, &scenario.settings)?;
        let b = B::new(alloc, &scenario.settings)?;
        let medium = Medium::new(
            alloc,
            scenario.acl_length,
            scenario.acl_count,
            scenario.chunk,
        )?;
        let pushes = Pushes::new(alloc, &scenario.names)?;
        Ok(World {
            a,
            b,
            scene: Scene {
                medium,
                pushes,
                turned: 0,
            },
        })
    }

    /// What came of the pushes that ended, in order.
    pub fn outcomes(&self) -> &[Outcome]
        ensures { result.now ≡ self.now.scene.pushes.outcomes }
    {
        self.scene.pushes.outcomes()
    }

    /// How many objects host b stored. The number stands still at the greatest one.
    pub fn kept(&self) -> u32
    where
        B: Keeps,
        ensures { result ≡ B.stored self.now.b }
    {
        self.b.kept()
    }

    /// The greatest numbers that were reached so far. Those of the buffers stand still at 65,535.
    pub fn peaks<P, Q>(&self) -> Peaks
    where
        A: Measured<P>,
        B: Measured<Q>,
        ensures buffers_a { result.buffers_a ≡ min self.now.scene.medium.peak_a 65535 }
        ensures buffers_b { result.buffers_b ≡ min self.now.scene.medium.peak_b 65535 }
        ensures windows { (result.window_a ≡ A.frames_sent self.now.a) × (result.window_b ≡ B.frames_sent self.now.b) }
        ensures credits { (result.credits_a ≡ A.credits_held self.now.a) × (result.credits_b ≡ B.credits_held self.now.b) }
    {
        Peaks {
            buffers_a: self.scene.medium.peak_a.min(u64::from(u16::MAX)) as u16,
            buffers_b: self.scene.medium.peak_b.min(u64::from(u16::MAX)) as u16,
            window_a: self.a.greatest_window(),
            window_b: self.b.greatest_window(),
            credits_a: self.a.greatest_credits(),
            credits_b: self.b.greatest_credits(),
        }
    }

    /// The frame that waits first in a direction, in two parts that follow one another. `None` exactly
    /// where none waits. It may be asked after a fault as well.
    pub fn front(&self, way: Way) -> Option<(&[u8], &[u8])>
        ensures { option_map (λ parts. parts.0.now ++ parts.1.now) result ≡ slice_get (frames way self.now.scene.medium.radio) 0 }
    {
        self.scene.medium.radio.front(way)
    }

    /// Lets both hosts start and begins the first push: all moves that can. It comes once and first.
    ///
    /// It is a run of the pure world, as the trace gained it, after which the world stands where its
    /// script goes on. It needs what `new` leads to, where no packet is owed back, and orderly machines:
    /// both say PDUs that hosts take, and host a asks for one link in a push. `TraceFault` where the
    /// trace fails, and `NoMemory` where none could be had (`lacks` says why): then the world goes on no
    /// more, and `breaks` says how far it came.
    pub fn start<P, Q, T: Sink>(
        &mut self,
        trace: &mut T,
        shelf: &mut P,
        inbox: &mut Q,
    ) -> Result<(), WorldFault>
    where
        A: Client<P>,
        B: Host<Q>,
        requires orderly { AreOrderly A.Host.machine B.machine }
        requires may { MayStart A.Host B.Host self.old shelf.old inbox.old }
        requires sides { (A.Host.side ≡ sides.A) × (B.side ≡ sides.B) }
        ensures { Turns A.Host B.Host [] self.old (ports_of T.Sink shelf.old inbox.old trace.old) self.new (ports_of T.Sink shelf.new inbox.new trace.new) result }
    {
        self.scene
            .start(&mut self.a, shelf, &mut self.b, inbox, trace)?;
        Ok(())
    }

    /// Turns the next word of a script: a run of the pure world, in which that word is turned. A word
    /// that finds something to do stands in the trace first, then it acts, and all moves that can; one
    /// that finds nothing is counted alone.
    ///
    /// It needs a word as a line of a scenario can say it, a world that stands, as `start` and `turn`
    /// leave it, and orderly machines. It refuses as `start` does; `NoMemory` also where more than
    /// 2^64 - 1 words would have been turned.
    pub fn turn<P, Q, T: Sink>(
        &mut self,
        word: Word,
        trace: &mut T,
        shelf: &mut P,
        inbox: &mut Q,
    ) -> Result<(), WorldFault>
    where
        A: Client<P>,
        B: Host<Q>,
        requires orderly { AreOrderly A.Host.machine B.machine }
        requires may { MayTurn A.Host B.Host self.old shelf.old inbox.old }
        requires word { IsWord word }
        requires sides { (A.Host.side ≡ sides.A) × (B.side ≡ sides.B) }
        ensures { Turns A.Host B.Host (word ∷ []) self.old (ports_of T.Sink shelf.old inbox.old trace.old) self.new (ports_of T.Sink shelf.new inbox.new trace.new) result }
    {
        self.scene
            .turn_times(1, word, &mut self.a, shelf, &mut self.b, inbox, trace)?;
        Ok(())
    }

    /// Turns all words of a script, in their order. From where a word that stands many times finds
    /// nothing to do on, it is counted at once. It needs, and refuses, as `turn` does.
    pub fn turn_all<P, Q, T: Sink>(
        &mut self,
        script: &Runs,
        trace: &mut T,
        shelf: &mut P,
        inbox: &mut Q,
    ) -> Result<(), WorldFault>
    where
        A: Client<P>,
        B: Host<Q>,
        requires orderly { AreOrderly A.Host.machine B.machine }
        requires may { MayTurn A.Host B.Host self.old shelf.old inbox.old }
        requires sides { (A.Host.side ≡ sides.A) × (B.side ≡ sides.B) }
        ensures { Turns A.Host B.Host (words_of script.now) self.old (ports_of T.Sink shelf.old inbox.old trace.old) self.new (ports_of T.Sink shelf.new inbox.new trace.new) result }
    {
        self.scene
            .turn_all(script, &mut self.a, shelf, &mut self.b, inbox, trace)?;
        Ok(())
    }

    /// Ends the push that goes on, if one does: with what came of it already, or else with the script.
    /// All objects that were not begun end with the script. Each object then has its outcome. It comes
    /// once and last. It refuses as `start` does. The shelf is not asked.
    pub fn finish<P, T: Sink>(&mut self, trace: &mut T, _shelf: &P) -> Result<(), WorldFault>
    where
        A: Client<P>,
        ensures { (rest : List A.Host.Answer) → Finishes (A.Host.machine.outcome ((A.Host.station self.old.a _shelf.now).upper rest)) self.old self.new (traced T.Sink trace.old) (traced T.Sink trace.new) result }
    {
        let came = self.a.outcome();
        self.scene.finish(came, trace)?;
        Ok(())
    }
}
