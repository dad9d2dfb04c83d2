//! What carries the SDUs of a channel.

ghost use Rattle.std.specs.Prelude.{◌≡◌, ◌≤◌, ℕ, None, Some, false, length, is_some, IfOk, IfSome};
ghost use Rattle.std.specs.Option.{option_map};
ghost use Rattle.channel_model.specs.Calls as calls;
ghost use Rattle.channel_model.specs.Changing.{is_retransmitting};
ghost use Rattle.channel_model.specs.Configuring.{new_carrier};
ghost use Rattle.channel_model.specs.Giving.{some_carrier_gives, carrier_given};
ghost use Rattle.ertm_frames.specs.Frames.{plain, IsFrame};
ghost use Rattle.l2cap_channels.specs.Arriving.{carrier_fault};
ghost use Rattle.l2cap_channels.specs.Given.{WritesNext};
ghost use Rattle.l2cap_channels.specs.Readings.{plain_reading, reading_by, IsRead, IsOpenCarrier};

use crate::reading::{Reading, payload_of};
use crate::writing::put_sdu;
use bt_base::{Cid, NoMemory};
use ertm_frames::{Frame, frame_of};
use ertm_machine::{Ertm, Heard};
use ertm_model::ErtmReason;
use l2cap_config::{Agreed, Mode};
use std::alloc::Global;
use std::marker::Model;

/// The longest SDU that is sent, in octets (this project's own).
const LONGEST_SDU: u16 = 32767;

/// The greatest values that settings have.
const GREATEST: Agreed = Agreed {
    mode: Mode::Enhanced,
    send_mtu: LONGEST_SDU,
    receive_mtu: LONGEST_SDU,
    send_mps: 1010,
    receive_mps: 1010,
    send_window: 63,
    receive_window: 63,
    tries: 20,
};

/// How a line carries SDUs.
#[derive(Clone, Copy)]
enum Carrying {
    /// Nothing is agreed on.
    Nothing,
    /// In basic mode, and whether an SDU waits.
    Basic { agreed: Agreed, waits: bool },
    /// By the machine.
    Enhanced,
}

/// The memory of one channel, and what carries its SDUs. A clause sees the carrier, where there is one.
#[derive(Drop)]
pub(crate) struct Line {
    carrying: Carrying,
    machine: Ertm,
    /// The SDU that waits in basic mode.
    sdu: Vec<u8>,
}

impl Model for Line {
    ghost use Rattle.std.specs.Prelude.{Option};
    ghost use Rattle.channel_model.specs.Value.{Carrier};

    ghost Value = { Option Carrier };

    ghost use Rattle.l2cap_channels.specs.Lines.{line_value, IsLine};

    ghost view = { line_value };

    ghost invariant = { IsLine };
}

impl Line {
    ghost use Rattle.std.specs.Prelude.{⊤};
    ghost use Rattle.std.specs.Borrow.{sem};
    ghost use mathlib.Core.Option.{none};
    ghost use denote.Follow.{follows_so};
    ghost use Rattle.l2cap_channels.specs.contracts.line.Line.{the_row};
    ghost use Rattle.l2cap_channels.specs.Arriving.{HearsLine};
    ghost use Rattle.l2cap_channels.specs.Lines.{IsFor, FiresLine};

    /// A line that carries nothing. It reserves all memory that it ever needs; `NoMemory` where it
    /// cannot be had.
    pub(crate) fn new(alloc: Global) -> Result<Line, NoMemory>
        ensures { IfOk result (λ line. line ≡ None) }
    {
        let machine = Ertm::new(alloc, &GREATEST)?;
        let sdu = Vec::with_capacity(alloc, usize::from(LONGEST_SDU))?;
        Ok(Line {
            carrying: Carrying::Nothing,
            machine,
            sdu,
        })
    }

    /// It carries nothing any more.
    pub(crate) fn clear(&mut self)
        ensures { self.new ≡ None }
    {
        self.carrying = Carrying::Nothing;
    }

    /// It is a new carrier by this agreement.
    pub(crate) fn agree(&mut self, agreed: &Agreed)
        requires mode { IsFor agreed.now.mode agreed.now }
        requires mtu { agreed.now.receive_mtu ≤ 32767 }
        ensures { self.new ≡ Some (new_carrier agreed.now) }
    {
        let agreed = Agreed {
            send_mtu: agreed.send_mtu.min(LONGEST_SDU),
            ..*agreed
        };
        match agreed.mode {
            Mode::Basic => {
                self.carrying = Carrying::Basic {
                    agreed,
                    waits: false,
                };
            }
            Mode::Enhanced => {
                self.machine.reset(&agreed);
                self.carrying = Carrying::Enhanced;
            }
        }
    }

    /// Whether there is a carrier.
    pub(crate) fn carries(&self) -> bool
        ensures { result ≡ is_some self.now }
    {
        !matches!(self.carrying, Carrying::Nothing)
    }

    /// The longest SDU that the peer takes, where there is a carrier.
    pub(crate) fn mtu(&self) -> Option<u16>
        ensures { result ≡ option_map calls.carrier_mtu self.now }
    {
        match self.carrying {
            Carrying::Nothing => None,
            Carrying::Basic { agreed, .. } => Some(agreed.send_mtu),
            Carrying::Enhanced => Some(self.machine.agreed().send_mtu),
        }
    }

    /// Whether an SDU waits.
    pub(crate) fn waits(&self) -> bool
        ensures { result ≡ calls.some_waits self.now }
    {
        match self.carrying {
            Carrying::Nothing => false,
            Carrying::Basic { waits, .. } => waits,
            Carrying::Enhanced => self.machine.waits(),
        }
    }

    /// Whether it is a retransmission machine.
    pub(crate) fn is_retransmitting(&self) -> bool
        ensures { result ≡ is_retransmitting self.now }
    {
        match self.carrying {
            Carrying::Nothing => false,
            Carrying::Basic { .. } => false,
            Carrying::Enhanced => true,
        }
    }

    /// Whether its machine waits for an acknowledgement or the answer to a poll.
    pub(crate) fn armed(&self) -> bool
        ensures { result ≡ calls.carrier_armed self.now }
    {
        match self.carrying {
            Carrying::Nothing => false,
            Carrying::Basic { .. } => false,
            Carrying::Enhanced => self.machine.armed(),
        }
    }

    /// How many frames are not acknowledged.
    pub(crate) fn window_used(&self) -> u8
        ensures { result ≡ calls.carrier_window self.now }
    {
        match self.carrying {
            Carrying::Nothing => 0,
            Carrying::Basic { .. } => 0,
            Carrying::Enhanced => self.machine.window_used(),
        }
    }

    /// Whether there is a PDU to give.
    pub(crate) fn gives(&self) -> bool
        ensures { (peer : ℕ) → result ≡ is_some (some_carrier_gives self.now peer) }
    {
        match self.carrying {
            Carrying::Nothing => false,
            Carrying::Basic { waits, .. } => waits,
            Carrying::Enhanced => self.machine.gives(),
        }
    }

    /// Takes an SDU, where none waits.
    pub(crate) fn put(&mut self, sdu: &[u8])
        requires { IfSome (option_map calls.carrier_mtu self.old) (λ mtu. length sdu.now ≤ mtu) }
        ensures { self.new ≡ option_map (λ carrier. calls.carrier_with carrier sdu.now) self.old }
    {
        match self.carrying {
            Carrying::Nothing => {}
            Carrying::Basic { waits: true, .. } => {}
            Carrying::Basic {
                agreed,
                waits: false,
            } => {
                self.sdu.clear();
                let _room_was_reserved = self.sdu.extend_from_slice(sdu);
                self.carrying = Carrying::Basic {
                    agreed,
                    waits: true,
                };
            }
            Carrying::Enhanced => {
                let _answer = self.machine.submit(sdu);
            }
        }
    }

    /// The timer fires. A machine that closes carries nothing any more, and the answer is why.
    pub(crate) fn fire(&mut self) -> Option<ErtmReason>
        ensures { FiresLine self.old result self.new }
    {
        match self.carrying {
            Carrying::Nothing => None,
            Carrying::Basic { .. } => None,
            Carrying::Enhanced => {
                let closed = self.machine.on_timer();
                if closed.is_some() {
                    self.carrying = Carrying::Nothing;
                }
                closed
            }
        }
    }

    /// Writes the next PDU for the peer's endpoint from the front of `into`, of at least 32,775 octets, and
    /// answers how many octets it has; None where there is nothing to give.
    pub(crate) fn give(&mut self, peer: Cid, into: &mut [u8]) -> Option<usize>
        requires { 32775 ≤ length into.old }
        ensures pdu { WritesNext (some_carrier_gives self.old peer) into.old result into.new }
        ensures after { self.new ≡ option_map carrier_given self.old }
    {
        match self.carrying {
            Carrying::Nothing => None,
            Carrying::Basic { waits: false, .. } => None,
            Carrying::Basic {
                agreed,
                waits: true,
            } => {
                self.carrying = Carrying::Basic {
                    agreed,
                    waits: false,
                };
                Some(put_sdu(peer.get(), &self.sdu, into))
            }
            Carrying::Enhanced => self.machine.next_frame(peer, into),
        }
    }

    /// What a PDU is for the carrier.
    pub(crate) fn read<'a>(&self, pdu: &'a [u8]) -> Reading<'a>
        ensures reads { plain_reading result ≡ reading_by self.now pdu.now }
        ensures frame { IsRead (plain_reading result) }
        ensures open { IsOpenCarrier self.now }
    {
        match self.carrying {
            Carrying::Nothing => Reading::Nothing,
            Carrying::Basic { .. } => Reading::Basic(payload_of(pdu)),
            Carrying::Enhanced => Reading::Framed(frame_of(pdu, self.machine.agreed().receive_mps)),
        }
    }

    /// Why a frame closes the machine, where it does.
    pub(crate) fn fault(&self, frame: &Frame<'_>) -> Option<ErtmReason>
        requires { IsFrame (plain frame.now) }
        ensures { result ≡ carrier_fault self.now (plain frame.now) }
    {
        match self.carrying {
            Carrying::Nothing => None,
            Carrying::Basic { .. } => None,
            Carrying::Enhanced => self.machine.fault(frame),
        }
    }

    /// The machine hears a frame that does not close it. An SDU that comes to its end is lent from the
    /// frame or from the machine.
    pub(crate) fn hear<'a>(&'a mut self, frame: Frame<'a>) -> Heard<'a>
        requires frame { IsFrame (plain frame) }
        requires stays { carrier_fault self.old (plain frame) ≡ None }
        ensures* { sem 𝓛 (follows_so the_row the_row self.entry.ghost_name none (λ _ _. ⊤) (λ new. HearsLine self.old (plain frame.entry) result new)) }
    {
        match self.carrying {
            Carrying::Nothing => Heard::Nothing,
            Carrying::Basic { .. } => Heard::Nothing,
            Carrying::Enhanced => self.machine.on_frame(frame),
        }
    }
}
