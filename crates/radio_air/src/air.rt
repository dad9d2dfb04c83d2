//! Frames that are put into the air, and that leave it.

ghost use Rattle.std.specs.Prelude.{◌≡◌, ◌≤◌, true, length, OnOk, OnErr, [], ◌%◌, ◌||◌, ◌++◌, nat_le, slice_get};
ghost use Rattle.std.specs.Option.{option_map};
ghost use Rattle.h4_framing.specs.Packets.{Acl};
ghost use Rattle.push_terms.specs.declared.word.Side.{Side};
ghost use Rattle.push_terms.specs.declared.word.Way.{Way};
ghost use Rattle.capture.specs.Frames.{way_served};
ghost use Rattle.radio_model.specs.Queues.{is_crowded};
ghost use Rattle.radio_model.specs.Words.{meets_on};
ghost use Rattle.radio_model.specs.Owed.{piece_taken, wants_memory, IsMet};
ghost use Rattle.radio_model.specs.Radio.{channel, frames, found, piece_from, after_taking, after_acl, after_deed, is_quiet};

use crate::manager::LinkManager;
use crate::queue::AirQueue;
use crate::radio::Radio;
use bt_base::NoMemory;
use push_terms::{Side, Way, Word};
use radio_model::{Deed, Fate};

/// An ACL packet comes out of a host: its piece goes into the host's own direction, and the packet
/// is counted.
fn carry(
    manager: &mut LinkManager,
    queue: &mut AirQueue,
    flies: bool,
    word: u16,
    octets: &[u8],
) -> Result<(), NoMemory>
    ensures manager { OnOk result (manager.new ≡ after_taking (word % 0x1000) manager.old) }
    ensures queue { OnOk result (queue.new ≡ piece_taken flies (piece_from manager.old (Acl word octets.now)) queue.old) }
    ensures size { queue.new.size ≡ queue.old.size }
    ensures memory { OnErr result (queue.old.coming ≡ [] → (nat_le 16 (length manager.old.owed) || is_crowded (piece_taken flies (piece_from manager.old (Acl word octets.now)) queue.old).waiting) ≡ true) }
{
    if let Some(boundary) = manager.boundary_from(word) {
        queue.take(flies, boundary, octets)?;
    }
    manager.count_packet(word % 0x1000)?;
    Ok(())
}

impl Radio {
    /// An ACL packet comes out of the host of a side. The frame that it completes is put into the
    /// air, where the host knows of the link there.
    pub(crate) fn carry(&mut self, side: Side, word: u16, octets: &[u8]) -> Result<(), NoMemory>
        ensures ok { OnOk result (self.new ≡ after_acl side word octets.now self.old) }
        ensures memory { OnErr result (self.old.a.coming ≡ [] → self.old.b.coming ≡ [] → wants_memory self.old (after_acl side word octets.now self.old) ≡ true) }
    {
        let flies = self.knows_link(side);
        match side {
            Side::A => carry(&mut self.a, &mut self.ab, flies, word, octets),
            Side::B => carry(&mut self.b, &mut self.ba, flies, word, octets),
        }
    }

    /// The channel identifier of the first frame that waits in a direction, `None` where none with a
    /// header waits: the receiver is asked whether it has a check word for that channel.
    ///
    /// It needs that nothing is on its way to either host.
    pub fn channel(&self, way: Way) -> Option<u16>
        requires { is_quiet self.now ≡ true }
        ensures { result ≡ channel way self.now }
    {
        match way {
            Way::Ab => self.ab.channel(),
            Way::Ba => self.ba.channel(),
        }
    }

    /// The first frame that waits in a direction, in two parts that follow one another: it lies in a
    /// ring. `None` exactly where none waits.
    pub fn front(&self, way: Way) -> Option<(&[u8], &[u8])>
        ensures { option_map (λ parts. parts.0.now ++ parts.1.now) result ≡ slice_get (frames way self.now) 0 }
    {
        match way {
            Way::Ab => self.ab.front(),
            Way::Ba => self.ba.front(),
        }
    }

    /// What a word of a radio script finds to act on.
    ///
    /// It needs that nothing is on its way to either host.
    pub fn found(&self, word: Word) -> Deed
        requires { is_quiet self.now ≡ true }
        ensures deed { result ≡ found word self.now }
        ensures met { IsMet result self.now }
    {
        match word {
            Word::Pass => self.passing(),
            Word::Lose(way) => self.meeting(way, Fate::Lost),
            Word::Repeat(way) => self.meeting(way, Fate::Repeated),
            Word::Damage { way, at, mask } => self.meeting(way, Fate::Changed { at, mask }),
            Word::Cut { way, packets } => self.meeting(way, Fate::CutOff(packets)),
            Word::Timer(side) => Deed::Fires(side),
            Word::Drop => self.breaking(),
            Word::Cancel => Deed::Cancels,
        }
    }

    fn breaking(&self) -> Deed
        requires { is_quiet self.now ≡ true }
        ensures { result ≡ found Word.Drop self.now }
    {
        if self.phase.is_together() {
            Deed::Breaks
        } else {
            Deed::Nothing
        }
    }

    /// The direction whose turn it is to be served. `None` where no frame waits.
    fn way_served(&self) -> Option<Way>
        ensures { result ≡ way_served self.now.served self.now.a.waiting self.now.b.waiting }
    {
        match (self.ab.len() == 0, self.ba.len() == 0) {
            (true, true) => None,
            (false, true) => Some(Way::Ab),
            (true, false) => Some(Way::Ba),
            (false, false) => match self.served {
                Some(Way::Ab) => Some(Way::Ba),
                Some(Way::Ba) | None => Some(Way::Ab),
            },
        }
    }

    fn passing(&self) -> Deed
        requires { is_quiet self.now ≡ true }
        ensures deed { result ≡ found Word.Pass self.now }
        ensures met { IsMet result self.now }
    {
        match self.way_served() {
            Some(way) => self.meeting(way, Fate::Delivered),
            None => Deed::FiresBoth,
        }
    }

    /// The first frame that waits in a direction meets its fate, if it can.
    fn meeting(&self, way: Way, fate: Fate) -> Deed
        requires { is_quiet self.now ≡ true }
        ensures deed { result ≡ meets_on way fate self.now.a.waiting self.now.b.waiting }
        ensures met { IsMet result self.now }
    {
        let (queue, other) = match way {
            Way::Ab => (&self.ab, &self.ba),
            Way::Ba => (&self.ba, &self.ab),
        };
        if queue.can_meet(fate, other.len()) {
            Deed::Meets(way, fate)
        } else {
            Deed::Nothing
        }
    }

    /// A word of a radio script acts: the first frame of a direction meets its fate, or the link
    /// breaks. `checked` says whether the receiver of that frame has a check word for its channel.
    /// That timers fire, and that a push is cancelled, is done by the hosts. It takes no memory.
    ///
    /// It needs that nothing is on its way to either host.
    pub fn act(&mut self, word: Word, checked: bool)
        requires { is_quiet self.old ≡ true }
        ensures { self.new ≡ after_deed checked (found word self.old) self.old }
    {
        match self.found(word) {
            Deed::Meets(way, fate) => self.meet(way, fate, checked),
            Deed::Breaks => self.break_link(),
            Deed::Nothing | Deed::Fires(_) | Deed::FiresBoth | Deed::Cancels => {}
        }
    }

    fn meet(&mut self, way: Way, fate: Fate, checked: bool)
        requires quiet { is_quiet self.old ≡ true }
        requires met { IsMet (Deed.Meets way fate) self.old }
        ensures { self.new ≡ after_deed checked (Deed.Meets way fate) self.old }
    {
        match way {
            Way::Ab => self.ab.meet(fate, checked),
            Way::Ba => self.ba.meet(fate, checked),
        }
        if let Fate::Delivered = fate {
            self.served = Some(way);
        }
    }
}
