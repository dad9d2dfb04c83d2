//! A host that counts to three, and awaits each number back.

use crate::echo::{octet_in, one_more, pdu_of};
use crate::mind::{Mind, PDU};
use crate::told::Told;
use host_link::Role;
use push_terms::Outcome;

/// How far it counts.
const LAST: u8 = 3;

/// How far a counter is.
#[derive(Clone, Copy, Debug, PartialEq, Eq)]
enum Stage {
    /// Nothing goes on.
    Resting,
    /// It wants a link.
    Calling,
    /// It has a number to say.
    Saying,
    /// It awaits its number back.
    Waiting,
    /// It ends its link.
    Leaving,
}

/// It asks for a link for each push, says the numbers 1 to 3, each once the one before came back, and ends the link. Where
/// its timer fires it says its number again.
#[derive(Drop)]
pub struct Counter {
    stage: Stage,
    number: u8,
    outcome: Option<Outcome>,
    heard: u16,
}

impl Counter {
    ghost use Rattle.std.specs.Prelude.{◌≡◌};
    ghost use Rattle.tiny_hosts.specs.Counting.{heard_at, goes_on};

    /// The number that it awaits came back.
    fn go_on(&mut self)
        ensures { self.new ≡ goes_on self.old }
    {
        if self.number < LAST {
            self.stage = Stage::Saying;
            self.number += 1;
        } else {
            self.stage = Stage::Leaving;
            self.outcome = Some(Outcome::Done);
        }
    }

    /// A number came.
    fn take(&mut self, octet: u8)
        ensures { self.new ≡ heard_at self.old.stage octet self.old }
    {
        if let Stage::Waiting = self.stage {
            if octet == self.number {
                self.go_on();
            }
        }
    }
}

impl Mind for Counter {
    ghost use Rattle.std.specs.Prelude.{refl};
    ghost use Rattle.push_terms.specs.declared.word.Side.TheVariants.{A};
    ghost use Rattle.tiny_hosts.specs.Counting.{counter};
    ghost use Rattle.tiny_hosts.specs.CounterLaws.{counter_called, counter_octets, counter_counted, counter_one_more};

    ghost machine = { counter };

    ghost side = { A };

    ghost count = { λ counter. counter.heard };

    fn new() -> Counter {
        Counter {
            stage: Stage::Resting,
            number: 0,
            outcome: None,
            heard: 0,
        }
    }

    fn role() -> Role {
        Role::Client
    }

    fn hear(&mut self, told: Told<'_>) {
        match (told, self.stage) {
            (Told::Opening(_), _) => {
                self.stage = Stage::Calling;
                self.number = 1;
                self.outcome = None;
            }
            (Told::LinkUp, Stage::Calling) => self.stage = Stage::Saying,
            (Told::LinkDown(_), Stage::Resting | Stage::Leaving) => self.stage = Stage::Resting,
            (Told::LinkDown(_), _) => {
                self.stage = Stage::Resting;
                self.outcome = Some(Outcome::LinkLost);
            }
            (Told::Pdu(pdu), _) => {
                self.heard = one_more(self.heard);
                self.take(octet_in(pdu));
            }
            (Told::TimerFired, Stage::Waiting) => self.stage = Stage::Saying,
            (Told::Cancelled, Stage::Saying | Stage::Waiting) => {
                self.stage = Stage::Leaving;
                self.outcome = Some(Outcome::Cancelled);
            }
            _ => {}
        }
    }

    fn has_pdu(&self) -> bool {
        matches!(self.stage, Stage::Saying)
    }

    fn say(&mut self) -> [u8; PDU] {
        self.stage = Stage::Waiting;
        pdu_of(self.number)
    }

    fn wants_link(&self) -> bool {
        matches!(self.stage, Stage::Calling)
    }

    fn leaves_link(&self) -> bool {
        matches!(self.stage, Stage::Leaving)
    }

    fn armed(&self) -> bool {
        matches!(self.stage, Stage::Waiting)
    }

    fn has_fcs(&self, _channel: u16) -> bool {
        true
    }

    fn idle(&self) -> bool {
        matches!(self.stage, Stage::Resting)
    }

    fn outcome(&self) -> Option<Outcome> {
        self.outcome
    }

    fn may_cancel(&self) -> bool {
        matches!(self.stage, Stage::Saying | Stage::Waiting)
    }

    fn heard(&self) -> u16 {
        self.heard
    }

    ghost begins_idle = { refl };

    ghost called = { counter_called };

    ghost octets = { counter_octets };

    ghost one_more = { counter_one_more };

    ghost counted = { counter_counted };
}
