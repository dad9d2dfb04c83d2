//! The stream of responses over RFCOMM, however it was cut.

ghost use Rattle.std.specs.Prelude.{◌≡◌, ◌++◌, List, ℕ, length, IfSome};
ghost use Rattle.push_model.specs.Client.{Client};
ghost use Rattle.push_model.specs.Responding.{hears_front, hears_stream};
ghost use Rattle.push_model.specs.Streams.{front_of};
ghost use Rattle.push_client.specs.Talking.{placed, Suits, goes_on, IsHeard};

use crate::causes::of_obex;
use crate::course::is_object;
use crate::dialog::Dialog;
use obex_headers::{Assembled, Assembler};

/// Hears what stands at the front of a stream: the octets that the assembler holds, and a piece. It answers how many octets
/// of the piece were heard, where what follows them is to be heard too.
///
/// Octets that begin no packet end the push. Nothing more is read once the link is to be broken.
fn hear_next(assembler: &mut Assembler, dialog: &mut Dialog, piece: &[u8]) -> Option<usize>
    requires suits { Suits assembler.old dialog.old }
    ensures hears { (more : List ℕ → Client → Client) (client : Client) → hears_front more (assembler.old.held ++ piece.now) (front_of dialog.old.session.maximum (assembler.old.held ++ piece.now)) (placed dialog.old assembler.old.held client) ≡ goes_on more piece.now assembler.new.held dialog.new result client }
    ensures heard { IfSome result (IsHeard piece.now assembler.new) }
    ensures suits { Suits assembler.new dialog.new }
{
    match assembler.take(piece) {
        Assembled::Packet(packet, used) => {
            dialog.hear_response(packet);
            if !is_object(dialog.course.stage) {
                return None;
            }
            Some(used)
        }
        Assembled::More => None,
        Assembled::Refused(refusal) => {
            assembler.reset();
            dialog.course.end(of_obex(refusal));
            None
        }
    }
}

/// Hears the packets of a stream: the octets that the assembler holds, and those behind them.
pub(crate) fn hear_stream(assembler: &mut Assembler, dialog: &mut Dialog, octets: &[u8])
    requires suits { Suits assembler.old dialog.old }
    ensures hears { (client : Client) → hears_stream (length (assembler.old.held ++ octets.now)) (assembler.old.held ++ octets.now) (placed dialog.old assembler.old.held client) ≡ placed dialog.new assembler.new.held client }
    ensures suits { Suits assembler.new dialog.new }
{
    let mut rest = octets;
    loop {
        let Some(used) = hear_next(assembler, dialog, rest) else {
            return;
        };
        rest = &rest[used..];
    }
}
