//! The link manager of a controller, as its host sees it.

ghost use Rattle.std.specs.Prelude.{◌≡◌, ◌%◌, ◌≤◌, ◌==◌, true, min, [], ◌∷◌, length, slice_get, IfOk, OnOk, OnErr};
ghost use Rattle.std.specs.Option.{option_map};
ghost use Rattle.radio_model.specs.Controllers.{new_controller, is_empty, owing, after_giving_back, after_telling, after_first_of};
ghost use Rattle.radio_model.specs.Radio.{after_taking};
ghost use Rattle.radio_model.specs.Owed.{outstanding_at};
ghost use Rattle.radio_air.specs.Plain.{plain_answer};
ghost use Rattle.radio_model.specs.Owed.{answers_reserved, boundary_from};

use crate::answer::Answer;
use crate::ring::make_room;
use bt_base::{Handle, NoMemory};
use circular_buffer::HeapCircularBuffer;
use hci_packets::{Boundary, acl_word};
use std::alloc::Global;
use std::marker::Model;

/// For how many answers there is room at first.
const ANSWERS: usize = 16;

/// What a controller does for its host beside the frames. A clause sees what its host was told, and
/// what it owes its host.
#[derive(Drop)]
pub(crate) struct LinkManager {
    /// What its host last wrote to Scan Enable.
    scan: u8,
    /// The last link that its host was told of, 0 at first.
    told: Handle,
    /// Whether that link is up, as far as its host was told.
    up: bool,
    /// The packets of its host on that link that were taken and not given back yet.
    taken: u16,
    answers: HeapCircularBuffer<Answer>,
}

impl Model for LinkManager {
    ghost use Rattle.std.specs.Prelude.{◌≤◌, [], map};
    ghost use Rattle.radio_model.specs.Controllers.{Controller};
    ghost use Rattle.radio_air.specs.Plain.{plain_answer};
    ghost use Rattle.radio_model.specs.Owed.{answers_reserved};

    ghost Value = { Controller };

    ghost view = { λ manager. record { scan = manager.scan; told = manager.told; up = manager.up; taken = manager.taken; begun = []; waiting = []; coming = []; owed = map plain_answer manager.answers.items } };

    ghost invariant = { λ manager. answers_reserved ≤ manager.answers.capacity };
}

impl LinkManager {
    /// One whose host was told of nothing, and which nobody may page.
    pub(crate) fn new(alloc: Global) -> Result<LinkManager, NoMemory>
        ensures { IfOk result (λ manager. manager ≡ new_controller) }
    {
        let none = Handle::of(0).unwrap();
        Ok(LinkManager {
            scan: 0,
            told: none,
            up: false,
            taken: 0,
            answers: HeapCircularBuffer::with_capacity(alloc, ANSWERS)?,
        })
    }

    pub(crate) fn scan(&self) -> u8
        ensures { result ≡ self.now.scan }
    {
        self.scan
    }

    pub(crate) fn told(&self) -> Handle
        ensures { result ≡ self.now.told }
    {
        self.told
    }

    pub(crate) fn is_up(&self) -> bool
        ensures { result ≡ self.now.up }
    {
        self.up
    }

    /// Its host writes Scan Enable.
    pub(crate) fn set_scan(&mut self, value: u8)
        ensures { self.new ≡ record self.old { scan = value } }
    {
        self.scan = value;
    }

    /// Whether it owes its host nothing.
    pub(crate) fn owes_nothing(&self) -> bool
        ensures { result ≡ is_empty self.now.owed }
    {
        self.answers.is_empty()
    }

    /// How many packets of its host are outstanding on the link that the host was told of: those that
    /// were taken, and those that are about to be given back. The number stands still at its end.
    pub(crate) fn outstanding(&self) -> u64
        ensures { result ≡ min (outstanding_at self.now) u64.MAX }
    {
        if !self.up {
            return 0;
        }
        let told = self.told.get();
        let mut count = u64::from(self.taken);
        for i in 0..self.answers.len() {
            let Some(answer) = self.answers.get(i) else {
                unreachable!()
            };
            count = count.saturating_add(u64::from(answer.given_back(told)));
        }
        count
    }

    /// It owes its host an answer more. `NoMemory` only where 16 are owed.
    pub(crate) fn owe(&mut self, answer: Answer) -> Result<(), NoMemory>
        ensures ok { OnOk result (self.new ≡ owing (plain_answer answer ∷ []) self.old) }
        ensures full { OnErr result (answers_reserved ≤ length self.old.owed) }
    {
        make_room(&mut self.answers, 1)?;
        let _none_leaves = self.answers.push_back(answer);
        Ok(())
    }

    /// The packets that were taken are given back by one event, where there are any. `NoMemory` only
    /// where 16 answers are owed.
    pub(crate) fn give_back(&mut self) -> Result<(), NoMemory>
        ensures ok { OnOk result (self.new ≡ after_giving_back self.old) }
        ensures full { OnErr result (answers_reserved ≤ length self.old.owed) }
    {
        if self.taken > 0 {
            let handle = self.told;
            let packets = self.taken;
            self.owe(Answer::GivenBack { handle, packets })?;
            self.taken = 0;
        }
        Ok(())
    }

    /// Counts a packet of its host, where it is on the handle of the last link that the host was
    /// told of. Where as many were taken as one event can give back, they are given back first:
    /// `NoMemory` only where 16 answers are owed then.
    pub(crate) fn count_packet(&mut self, handle: u16) -> Result<(), NoMemory>
        ensures ok { OnOk result (self.new ≡ after_taking handle self.old) }
        ensures full { OnErr result (answers_reserved ≤ length self.old.owed) }
    {
        if handle != self.told.get() || handle == 0 {
            return Ok(());
        }
        if self.taken == u16::MAX {
            self.give_back()?;
        }
        self.taken += 1;
        Ok(())
    }

    /// Where the piece of an ACL packet stands in its frame, if it is one on the link that its host
    /// knows of.
    pub(crate) fn boundary_from(&self, word: u16) -> Option<Boundary>
        ensures { result ≡ boundary_from self.now word }
    {
        match acl_word(word) {
            Ok(head) if head.broadcast == 0 && self.up && head.handle == self.told => {
                Some(head.boundary)
            }
            _ => None,
        }
    }

    /// What its host knows once it was told that.
    fn tell(&mut self, answer: &Answer)
        ensures { self.new ≡ after_telling (plain_answer answer.now) self.old }
    {
        match *answer {
            Answer::LinkMade(handle) => {
                self.told = handle;
                self.up = true;
                self.taken = 0;
            }
            Answer::LinkGone { .. } => self.up = false,
            _ => {}
        }
    }

    /// The answer that comes next, if one is owed.
    pub(crate) fn next(&mut self) -> Option<Answer>
        ensures answer { option_map plain_answer result ≡ slice_get self.old.owed 0 }
        ensures manager { self.new ≡ after_first_of [] self.old.owed self.old }
    {
        let answer = self.answers.pop_front()?;
        self.tell(&answer);
        Some(answer)
    }
}
