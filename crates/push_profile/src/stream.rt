//! The stream of packets over RFCOMM, however it was cut.

ghost use Rattle.std.specs.Prelude.{◌≡◌, ◌++◌, List, ℕ, true, false, length, is_err, IfOk, IfSome};
ghost use Rattle.obex_session.specs.Counting.{counts_of};
ghost use Rattle.push_model.specs.Sessions.{Gift, is_pending};
ghost use Rattle.push_model.specs.Listening.{Listener as Heeding, Received, stops, hears_stream};
ghost use Rattle.push_profile.specs.Reactions.{Comes};
ghost use Rattle.push_profile.specs.Hearing.{Suits, ended, front_heard, goes_on, IsHeard};

use crate::listener::Listener;
use crate::octets::first_three;
use bt_base::{Inbox, NoMemory};
use obex_headers::{Assembled, Assembler};

/// Hears what stands at the front of a stream: the octets that the assembler holds, and a piece. It answers how many octets
/// of the piece were heard, where what follows them is to be heard too.
///
/// Octets that begin no packet are heard by their first three.
fn hear_next<B: Inbox>(
    assembler: &mut Assembler,
    listener: &mut Listener,
    piece: &[u8],
    inbox: &mut B,
) -> Result<Option<usize>, NoMemory>
    requires pending { B.is_pending inbox.old ≡ is_pending listener.old.service.sessions }
    requires works { stops listener.old ≡ false }
    requires suits { Suits assembler.old listener.old }
    ensures comes { (more : List ℕ → Heeding → Gift → Received) → Comes (front_heard more (assembler.old.held ++ piece.now) listener.old) (goes_on more piece.now assembler.new.held listener.new result) (B.content inbox.old) (B.content inbox.new) (counts_of B.faults B.shortages inbox.old) (counts_of B.faults B.shortages inbox.new) (is_err result) }
    ensures heard { IfOk result (λ next. IfSome next (IsHeard assembler.old piece.now assembler.new listener.new)) }
    ensures fails { is_err result ≡ listener.new.service.failed }
    ensures suits { Suits assembler.new listener.new }
    ensures pending { B.is_pending inbox.new ≡ is_pending listener.new.service.sessions }
{
    match assembler.take(piece) {
        Assembled::Packet(packet, used) => {
            let Ok(()) = listener.hear_carried(packet, inbox) else {
                return Err(NoMemory);
            };
            if listener.stops() {
                return Ok(None);
            }
            Ok(Some(used))
        }
        Assembled::More => Ok(None),
        Assembled::Refused(_) => {
            let front = first_three(assembler.held(), piece);
            assembler.reset();
            let Ok(()) = listener.hear_broken(&front, inbox) else {
                return Err(NoMemory);
            };
            Ok(None)
        }
    }
}

/// Hears the packets of a stream: the octets that the assembler holds, and those behind them.
pub(crate) fn hear_stream<B: Inbox>(
    assembler: &mut Assembler,
    listener: &mut Listener,
    octets: &[u8],
    inbox: &mut B,
) -> Result<(), NoMemory>
    requires pending { B.is_pending inbox.old ≡ is_pending listener.old.service.sessions }
    requires works { stops listener.old ≡ false }
    requires suits { Suits assembler.old listener.old }
    ensures comes { Comes (hears_stream (length (assembler.old.held ++ octets.now)) (assembler.old.held ++ octets.now) listener.old) (ended listener.new assembler.new.held) (B.content inbox.old) (B.content inbox.new) (counts_of B.faults B.shortages inbox.old) (counts_of B.faults B.shortages inbox.new) (is_err result) }
    ensures fails { is_err result ≡ listener.new.service.failed }
    ensures suits { Suits assembler.new listener.new }
    ensures pending { B.is_pending inbox.new ≡ is_pending listener.new.service.sessions }
{
    let mut rest = octets;
    loop {
        let Ok(next) = hear_next(assembler, listener, rest, inbox) else {
            return Err(NoMemory);
        };
        let Some(used) = next else {
            return Ok(());
        };
        rest = &rest[used..];
    }
}
