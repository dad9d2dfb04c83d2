//! A host that says again what it hears.

ghost use Rattle.tiny_hosts.specs.Talking.{octet_in, pdu_of, one_more};
ghost use Rattle.std.specs.Prelude.{◌≡◌};

use crate::mind::{Mind, PDU};
use crate::told::Told;
use host_link::Role;
use push_terms::Outcome;

/// The octet that a PDU carries, and 0 where it has none.
pub(crate) fn octet_in(pdu: &[u8]) -> u8
    ensures { result ≡ octet_in pdu.now }
{
    match pdu {
        [_, _, _, _, octet, ..] => *octet,
        _ => 0,
    }
}

/// A PDU that carries that octet.
pub(crate) fn pdu_of(octet: u8) -> [u8; PDU]
    ensures { result ≡ pdu_of octet }
{
    [2, 0, 0x40, 0, octet, 0]
}

/// One more, up to the greatest number.
pub(crate) fn one_more(count: u16) -> u16
    ensures { result ≡ one_more count }
{
    count.saturating_add(1)
}

/// It says each PDU again that it hears, and the last one once more where its timer fires.
#[derive(Drop)]
pub struct Echo {
    /// What it has to say.
    answer: Option<u8>,
    /// What it heard last on its link.
    last: Option<u8>,
    /// How many PDUs it heard.
    heard: u16,
}

impl Mind for Echo {
    ghost use Rattle.std.specs.Prelude.{refl};
    ghost use Rattle.push_terms.specs.declared.word.Side.TheVariants.{B};
    ghost use Rattle.tiny_hosts.specs.Echoing.{echo};
    ghost use Rattle.tiny_hosts.specs.EchoLaws.{echo_octets, echo_counted, echo_one_more};

    ghost machine = { echo };

    ghost side = { B };

    ghost count = { λ echo. echo.heard };

    fn new() -> Echo {
        Echo {
            answer: None,
            last: None,
            heard: 0,
        }
    }

    fn role() -> Role {
        Role::Server
    }

    fn hear(&mut self, told: Told<'_>) {
        match told {
            Told::LinkUp | Told::LinkDown(_) => {
                self.answer = None;
                self.last = None;
            }
            Told::Pdu(pdu) => {
                let octet = octet_in(pdu);
                self.answer = Some(octet);
                self.last = Some(octet);
                self.heard = one_more(self.heard);
            }
            Told::TimerFired => self.answer = self.last,
            Told::LinkFailed(_) | Told::Cancelled | Told::Opening(_) => {}
        }
    }

    fn has_pdu(&self) -> bool {
        self.answer.is_some()
    }

    fn say(&mut self) -> [u8; PDU] {
        let Some(octet) = self.answer else {
            unreachable!()
        };
        self.answer = None;
        pdu_of(octet)
    }

    fn wants_link(&self) -> bool {
        false
    }

    fn leaves_link(&self) -> bool {
        false
    }

    fn armed(&self) -> bool {
        self.last.is_some()
    }

    fn has_fcs(&self, _channel: u16) -> bool {
        true
    }

    fn idle(&self) -> bool {
        true
    }

    fn outcome(&self) -> Option<Outcome> {
        None
    }

    fn may_cancel(&self) -> bool {
        false
    }

    fn heard(&self) -> u16 {
        self.heard
    }

    ghost begins_idle = { refl };

    ghost called = { λ is mind. refl };

    ghost octets = { echo_octets };

    ghost one_more = { echo_one_more };

    ghost counted = { echo_counted };
}
