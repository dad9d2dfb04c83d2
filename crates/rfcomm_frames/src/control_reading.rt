//! Octets as a control message.

ghost use Rattle.std.specs.Prelude.{◌≡◌, option_map};
ghost use Rattle.rfcomm_frames.specs.Controls.{plain_control};
ghost use Rattle.rfcomm_frames.specs.ControlAnswers.{control_answer, IsControlAnswer};
ghost use Rattle.rfcomm_frames.specs.Reading.{message, parameters, modem_signals, not_supported};

use crate::control::Control;
use crate::length::split_length;
use crate::refusal::MuxRefusal;
use byteorder::{ByteOrder, LittleEndian};

/// The control message at the front of octets, and how many octets it has (TS 07.10, 5.4.6;
/// RFCOMM 1.2, 4.3).
///
/// In this order: `Short` where the type and the length are not there whole, `BadExtension` where
/// bit 0 of the type is clear, and `LengthMismatch` where the value passes the end, or has another
/// length than 8 octets (PN), 2 (MSC) or 1 (NSC). No other refusal comes.
pub fn control_of<'a>(octets: &'a [u8]) -> Result<(Control<'a>, usize), MuxRefusal>
    ensures { IsControlAnswer octets.now (control_answer result) }
{
    let Some((kind, behind)) = octets.split_first() else {
        return Err(MuxRefusal::Short);
    };
    let Some((count, rest)) = split_length(behind) else {
        return Err(MuxRefusal::Short);
    };
    if *kind % 2 == 0 {
        return Err(MuxRefusal::BadExtension);
    }
    if rest.len() < count {
        return Err(MuxRefusal::LengthMismatch);
    }
    let Some(control) = message(*kind, &rest[..count]) else {
        return Err(MuxRefusal::LengthMismatch);
    };
    Ok((control, octets.len() - rest.len() + count))
}

/// What a value says under a type octet. None where no value of that type has its length.
fn message(kind: u8, value: &[u8]) -> Option<Control<'_>>
    ensures { option_map plain_control result ≡ message kind value.now }
{
    let flag = kind / 2 % 2;
    let command = flag == 1;
    // The type octet of the response.
    match kind - 2 * flag {
        0x81 => parameters(command, value),
        0xE1 => modem_signals(command, value),
        0x21 => Some(Control::Test {
            command,
            octets: value,
        }),
        0x91 => Some(Control::Rpn { command, value }),
        0x51 => Some(Control::Rls { command, value }),
        _ if kind == 0x11 => not_supported(value),
        _ => Some(Control::Other(kind, value)),
    }
}

fn parameters(command: bool, value: &[u8]) -> Option<Control<'_>>
    ensures { option_map plain_control result ≡ parameters command value.now }
{
    if value.len() != 8 {
        return None;
    }
    Some(Control::Pn {
        command,
        dlci: value[0],
        flow: value[1],
        priority: value[2],
        timer: value[3],
        frame: LittleEndian::read_u16(&value[4..]),
        retransmissions: value[6],
        credits: value[7],
    })
}

fn modem_signals(command: bool, value: &[u8]) -> Option<Control<'_>>
    ensures { option_map plain_control result ≡ modem_signals command value.now }
{
    if value.len() != 2 {
        return None;
    }
    Some(Control::Msc {
        command,
        dlci: value[0],
        signals: value[1],
    })
}

fn not_supported(value: &[u8]) -> Option<Control<'_>>
    ensures { option_map plain_control result ≡ not_supported value.now }
{
    if value.len() != 1 {
        return None;
    }
    Some(Control::Nsc(value[0]))
}
