//! The form `receive`.

ghost use Rattle.std.specs.Prelude.{◌≡◌, ◌≢◌, ◌≤◌, ◌⊎◌, false, [], IfSome, OnOk, IsErrOf};
ghost use Rattle.bt_base.specs.Counts.{HasRisen};
ghost use Rattle.bt_host.specs.obex_session.specs.Counting.{counts_of};
ghost use Rattle.btpush_forms.specs.h4_view.specs.View.{IsAnswered};
ghost use Rattle.btpush_forms.specs.Run.{HasCauses};
ghost use Rattle.receiving.specs.Counts.{Counts, Lacked};
ghost use Rattle.receiving.specs.Ports.{ports_of, LacksMemory};
ghost use Rattle.receiving.specs.Receiving.{Listened, Receives};

use crate::fault::ListenFault;
use crate::listening::serve;
use crate::telling::tell;
use bt_base::{Inbox, Settings, Sink, Source};
use bt_host::ServerHost;
use btpush_forms::Status;
use h4_framing::Framer;
use std::alloc::Global;

/// The longest ACL packet that a host takes, in octets.
const ACL_LIMIT: u16 = 1_021;

/// Feeds the source to a new host, and writes what this says.
fn listen<S: Source, K: Sink, B: Inbox>(
    alloc: Global,
    source: &mut S,
    sink: &mut K,
    inbox: &mut B,
) -> Result<(), ListenFault>
    requires { B.is_pending inbox.old ≡ false }
    ensures listened { Listened (S.content source.old) (S.content source.new) (K.content sink.old) (K.content sink.new) (B.content inbox.old) (B.content inbox.new) (counts_of B.faults B.shortages inbox.old) (counts_of B.faults B.shortages inbox.new) result }
    ensures finish { OnOk result (IfSome (S.content source.new) (λ left. left ≡ [])) }
    ensures source_counts { Counts (S.faults source.old) (S.faults source.new) (S.shortages source.old) (S.shortages source.new) ListenFault.ReadFault result }
    ensures sink_counts { Counts (K.faults sink.old) (K.faults sink.new) (K.shortages sink.old) (K.shortages sink.new) ListenFault.WriteFault result }
    ensures inbox_stays { B.shortages inbox.old ≤ B.shortages inbox.new }
    ensures lacked { IsErrOf result ListenFault.NoMemory → ((source.new ≡ source.old) × (sink.new ≡ sink.old) × (inbox.new ≡ inbox.old)) ⊎ Lacked (S.shortages source.old) (S.shortages source.new) (K.shortages sink.old) (K.shortages sink.new) (B.shortages inbox.old) (B.shortages inbox.new) result }
{
    let Ok(framer) = Framer::new(alloc, ACL_LIMIT) else {
        return Err(ListenFault::NoMemory);
    };
    let settings = Settings::plain();
    let Ok(host) = ServerHost::new(alloc, &settings) else {
        return Err(ListenFault::NoMemory);
    };
    match serve(host, framer, source, sink, inbox) {
        Ok(()) => Ok(()),
        Err(fault) => Err(fault),
    }
}

/// Feeds the octets of the source to a host that receives objects, octet by octet, and writes what the host puts out to the sink, its
/// first command before the first read. Objects that come are stored in the inbox.
///
/// `Ok` comes where the stream is whole packets and was read to its end. `InputRefused` comes where it is none, where a packet says that
/// a command failed or that the controller takes no packets of a host, and where it goes past 67,108,864 octets; the trace then gets the
/// line that tells where and why. `ReadFault`, `WriteFault` and `NoMemory` come where a port failed or found no memory, and `NoMemory`
/// where none is to be had before anything happens. No object may be pending in the inbox.
pub fn receive<S: Source, K: Sink, T: Sink, B: Inbox>(
    alloc: Global,
    source: &mut S,
    sink: &mut K,
    trace: &mut T,
    inbox: &mut B,
) -> Status
    requires { B.is_pending inbox.old ≡ false }
    // A new host was fed the octets that were read; the sink gained what it said, and the inbox what it stored, whose
    // counts say what it answered.
    ensures receives { Receives (S.content source.old) (S.content source.new) (K.content sink.old) (K.content sink.new) (T.content trace.old) (T.content trace.new) (B.content inbox.old) (B.content inbox.new) (counts_of B.faults B.shortages inbox.old) (counts_of B.faults B.shortages inbox.new) result }
    ensures known { (result ≢ Status.BadWords) × (result ≢ Status.SomeFailed) }
    ensures finish { result ≡ Status.Ok → IfSome (S.content source.new) (λ left. left ≡ []) }
    // Each fault has its cause, and a shortage of memory of source, sink and trace is answered.
    ensures causes { HasCauses (S.faults source.old) (S.faults source.new) (K.faults sink.old) (K.faults sink.new) (T.faults trace.old) (T.faults trace.new) result }
    ensures source_short { IsAnswered (S.shortages source.old) (S.shortages source.new) (result ≡ Status.NoMemory) }
    ensures sink_short { IsAnswered (K.shortages sink.old) (K.shortages sink.new) (result ≡ Status.NoMemory) }
    ensures trace_short { IsAnswered (T.shortages trace.old) (T.shortages trace.new) (result ≡ Status.NoMemory) }
    ensures inbox_stays { B.shortages inbox.old ≤ B.shortages inbox.new }
    // Want of memory comes only before anything happens, or where a port found none.
    ensures no_memory { result ≡ Status.NoMemory → let at = ports_of S.Source K.Sink T.Sink B.Inbox in LacksMemory (at source.old sink.old trace.old inbox.old) (at source.new sink.new trace.new inbox.new) }
{
    let end = listen(alloc, source, sink, inbox);
    tell(end, trace)
}
