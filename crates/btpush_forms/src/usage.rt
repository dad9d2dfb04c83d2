//! How the program is used.

ghost use Rattle.std.specs.Prelude.{◌≡◌};
ghost use Rattle.h4_view.specs.View.{IsAnswered};
ghost use Rattle.btpush_forms.specs.Run.{RefusesWords, HasCauses};

use crate::status::Status;
use bt_base::{PortFault, Sink};

/// The line that tells how the program is used.
const USAGE: &str =
    "usage: btpush decode|push|receive|make|snoop|wire [--tagged] [--snoop] [--side S] [--number N]\n";

/// Writes how the program is used.
pub(crate) fn refuse_words<K: Sink>(sink: &mut K) -> Status
    ensures words { RefusesWords (K.content sink.old) (K.content sink.new) result }
    ensures causes { HasCauses 0 0 (K.faults sink.old) (K.faults sink.new) 0 0 result }
    ensures sink_short { IsAnswered (K.shortages sink.old) (K.shortages sink.new) (result ≡ Status.NoMemory) }
{
    match sink.put(USAGE.as_bytes()) {
        Ok(()) => Status::BadWords,
        Err(PortFault::Failed) => Status::WriteFault,
        Err(PortFault::NoMemory) => Status::NoMemory,
    }
}
