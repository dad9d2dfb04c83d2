//! A control message as its octets.

ghost use Rattle.std.specs.Prelude.{◌≡◌, ◌≤◌, ◌<◌, ◌+◌, ◌^◌, ◌++◌, length, take, drop};
ghost use Rattle.rfcomm_frames.specs.Lengths.{sized};
ghost use Rattle.rfcomm_frames.specs.Controls.{plain_control, type_of, value_of, IsControl, SpellsControl, written};

use crate::control::Control;
use crate::length::put_length;
use crate::pieces::put;

/// Writes a control message from the front of `into`, with the shortest length field, and answers
/// how many octets it has (TS 07.10, 5.4.6; RFCOMM 1.2, 4.3). The octets behind it stay as they are.
///
/// It needs room, a value of at most 32,767 octets, and under `Other` a type octet that ends with its
/// first octet and is none of the others.
pub fn put_control(control: &Control<'_>, into: &mut [u8]) -> usize
    requires fits { IsControl (plain_control control.now) }
    requires few { length (value_of (plain_control control.now)) < 2 ^ 15 }
    requires room { length (written (plain_control control.now)) ≤ length into.old }
    ensures count { result ≡ length (written (plain_control control.now)) }
    ensures spelling { SpellsControl (plain_control control.now) (take result into.new) }
    ensures rest { drop result into.new ≡ drop result into.old }
{
    let start = put(&[type_of(control)], 0, into);
    put_value(control, start, into)
}

/// The type octet of a control message.
fn type_of(control: &Control<'_>) -> u8
    ensures { result ≡ type_of (plain_control control.now) }
{
    match *control {
        Control::Pn { command, .. } => 0x81 + 0x02 * u8::from(command),
        Control::Msc { command, .. } => 0xE1 + 0x02 * u8::from(command),
        Control::Test { command, .. } => 0x21 + 0x02 * u8::from(command),
        Control::Rpn { command, .. } => 0x91 + 0x02 * u8::from(command),
        Control::Rls { command, .. } => 0x51 + 0x02 * u8::from(command),
        Control::Nsc(_) => 0x11,
        Control::Other(kind, _) => kind,
    }
}

/// Writes the length and the value of a control message from `at` on, and answers the place behind
/// them.
fn put_value(control: &Control<'_>, at: usize, into: &mut [u8]) -> usize
    requires few { length (value_of (plain_control control.now)) < 2 ^ 15 }
    requires room { at + length (sized (value_of (plain_control control.now))) ≤ length into.old }
    ensures end { result ≡ at + length (sized (value_of (plain_control control.now))) }
    ensures written { into.new ≡ take at into.old ++ (sized (value_of (plain_control control.now)) ++ drop result into.old) }
{
    match *control {
        Control::Pn {
            dlci,
            flow,
            priority,
            timer,
            frame,
            retransmissions,
            credits,
            ..
        } => {
            let [low, high] = frame.to_le_bytes();
            let value = [
                dlci,
                flow,
                priority,
                timer,
                low,
                high,
                retransmissions,
                credits,
            ];
            put_sized(&value, at, into)
        }
        Control::Msc { dlci, signals, .. } => put_sized(&[dlci, signals], at, into),
        Control::Test { octets, .. } => put_sized(octets, at, into),
        Control::Rpn { value, .. } | Control::Rls { value, .. } => put_sized(value, at, into),
        Control::Nsc(kind) => put_sized(&[kind], at, into),
        Control::Other(_, value) => put_sized(value, at, into),
    }
}

/// Writes the shortest length field of octets and the octets from `at` on, and answers the place
/// behind them.
fn put_sized(octets: &[u8], at: usize, into: &mut [u8]) -> usize
    requires few { length octets.now < 2 ^ 15 }
    requires room { at + length (sized octets.now) ≤ length into.old }
    ensures end { result ≡ at + length (sized octets.now) }
    ensures written { into.new ≡ take at into.old ++ (sized octets.now ++ drop result into.old) }
{
    let start = put_length(octets.len(), at, into);
    put(octets, start, into)
}
