//! The commands of a payload, one after the other.

ghost use Rattle.std.specs.Prelude.{◌≡◌, ◌≤◌, ◌<◌, ◌+◌, List, length, drop, option_map, slice_get};
ghost use Rattle.l2cap_signal.specs.Reading.{Answer, answer, first, judged, answers};

use crate::kinds::kind_of;
use crate::refusal::SignalRefusal;
use crate::signal::Signal;
use byteorder::{ByteOrder, LittleEndian};
use std::marker::Model;

/// The longest payload that is read as commands, in octets.
const SIGNALLING_MTU: usize = 672;

/// What is still to be answered to a payload. A clause sees it as the list of those answers.
#[derive(Debug, Drop)]
pub struct Signals<'a> {
    rest: &'a [u8],
}

impl<'a> Model for Signals<'a> {
    ghost Value = { List Answer };

    ghost view = { λ signals. answers signals.rest.now };
}

/// The commands of a payload on the signalling channel, to be taken by `Signals::next`.
pub fn signals_of<'a>(payload: &'a [u8]) -> Signals<'a>
    ensures { result ≡ answers payload.now }
{
    Signals { rest: payload }
}

impl<'a> Signals<'a> {
    /// The next command or refusal, and None at the end.
    ///
    /// A stated length that passes the end, or a rest of one to three octets, is `BadLength`, and the
    /// end. Any other refusal of a command goes on after it. A payload above 672 octets is `AboveMtu`,
    /// and the end.
    pub fn next(&mut self) -> Option<Result<Signal<'a>, SignalRefusal>>
        ensures answer { option_map answer result ≡ slice_get self.old 0 }
        ensures rest { self.new ≡ drop 1 self.old }
    {
        if self.rest.is_empty() {
            return None;
        }
        let (found, rest) = first_of(self.rest);
        self.rest = rest;
        Some(found)
    }
}

/// The answer at the front of octets, and the octets that are still to be read.
#[tactic(auto, unfolding(crate::specs::Reading::first))]
fn first_of(octets: &[u8]) -> (Result<Signal<'_>, SignalRefusal>, &[u8])
    requires { 0 < length octets.now }
    ensures { (answer result.0, result.1.now) ≡ first octets.now }
{
    let code = octets[0];
    let identifier = octets.get(1).copied();
    if octets.len() > SIGNALLING_MTU {
        return (Err(SignalRefusal::AboveMtu { code, identifier }), &[]);
    }
    if octets.len() < 4 {
        return (Err(SignalRefusal::BadLength { code, identifier }), &[]);
    }
    let size = LittleEndian::read_u16(&octets[2..]) as usize;
    let behind = &octets[4..];
    if behind.len() < size {
        return (Err(SignalRefusal::BadLength { code, identifier }), &[]);
    }
    let (payload, rest) = behind.split_at(size);
    (judged(code, octets[1], payload), rest)
}

/// What is answered to a command that is there whole.
fn judged(code: u8, identifier: u8, payload: &[u8]) -> Result<Signal<'_>, SignalRefusal>
    ensures { answer result ≡ judged code identifier payload.now }
{
    let named = Some(identifier);
    if identifier == 0 {
        return Err(SignalRefusal::ZeroIdentifier {
            code,
            identifier: named,
        });
    }
    if code == 0 || code > 11 {
        return Err(SignalRefusal::UnknownCode {
            code,
            identifier: named,
        });
    }
    match kind_of(code, payload) {
        Some(kind) => Ok(Signal { identifier, kind }),
        None => Err(SignalRefusal::BadLength {
            code,
            identifier: named,
        }),
    }
}
