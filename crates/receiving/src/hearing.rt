//! A host is fed octets, one after the other, and all that it says is written behind each.

ghost use Rattle.std.specs.Prelude.{◌≡◌, ◌≤◌, ◌<◌, ◌+◌, ◌∷◌, ℕ, List, [], length, true, false, IfErr, IsErrOf, OnOk};
ghost use Rattle.bt_base.specs.Streams.{gained, GainedFront};
ghost use Rattle.bt_host.specs.host_model.specs.Circumstances.{Circumstance};
ghost use Rattle.bt_host.specs.declared.feed_refusal.FeedRefusal.TheVariants as fed;
ghost use Rattle.receiving.specs.Turns.{Begun, emptied};
ghost use Rattle.receiving.specs.Coming.{input_limit, Beside, beside};
ghost use Rattle.h4_framing.specs.declared.framer.Taken.{Taken as Answer};
ghost use Rattle.h4_framing.specs.Taking.{Takes};
ghost use Rattle.receiving.specs.Faring.{Fares, HearsOneOn, HearsOn, spot, told_by, IsOfSink};
ghost use Rattle.receiving.specs.Counts.{Counts, Lacked};

use crate::fault::{ListenFault, StreamRefusal};
use crate::fed_host::FedHost;
use crate::reading::write;
use bt_base::Sink;
use bt_host::FeedRefusal;
use h4_framing::{Framer, H4Refusal, Taken};

/// What a refusal of a host is to the stream that it is fed.
fn told(refusal: FeedRefusal) -> ListenFault
    ensures { result ≡ told_by refusal }
{
    match refusal {
        FeedRefusal::Transport(H4Refusal::BadIndicator, place) => {
            ListenFault::Refused(StreamRefusal::BadIndicator, place)
        }
        FeedRefusal::Transport(H4Refusal::AclTooLong, place) => {
            ListenFault::Refused(StreamRefusal::AclTooLong, place)
        }
        FeedRefusal::Transport(H4Refusal::Truncated, place) => {
            ListenFault::Refused(StreamRefusal::Truncated, place)
        }
        FeedRefusal::CommandFailed(_, _, place) => {
            ListenFault::Refused(StreamRefusal::CommandFailed, place)
        }
        FeedRefusal::BadBuffers(_, _, place) => {
            ListenFault::Refused(StreamRefusal::BadBuffers, place)
        }
        FeedRefusal::NoMemory => ListenFault::NoMemory,
    }
}

/// Whether a host refused since its port found no memory.
fn is_short(refusal: FeedRefusal) -> bool
    ensures yes { result ≡ true → refusal ≡ fed.NoMemory }
    ensures no { result ≡ false → refusal ≡ fed.NoMemory → ⊥ }
{
    matches!(refusal, FeedRefusal::NoMemory)
}

/// Writes what a host put out, which its controller took then, also after a fault.
pub(crate) fn say<P, L: FedHost<P>, K: Sink>(
    host: &mut L,
    port: &P,
    sink: &mut K,
) -> Result<(), ListenFault>
    ensures stands { L.stands host.new port.now ≡ (λ rest. emptied (L.stands host.old port.now rest)) }
    ensures framing { L.framing host.new ≡ L.framing host.old }
    ensures profile { L.profile host.new ≡ L.profile host.old }
    ensures sound { L.is_sound host.old port.now → L.is_sound host.new port.now }
    ensures said { (rest : List Circumstance) → (L.stands host.old port.now rest).line.out ≡ (L.stands host.old port.now []).line.out }
    ensures ok { OnOk result (K.content sink.new ≡ gained (K.content sink.old) (L.stands host.old port.now []).line.out) }
    ensures front { GainedFront (K.content sink.old) (K.content sink.new) (L.stands host.old port.now []).line.out }
    ensures of_sink { IfErr result IsOfSink }
    ensures counts { Counts (K.faults sink.old) (K.faults sink.new) (K.shortages sink.old) (K.shortages sink.new) ListenFault.WriteFault result }
    ensures lacked { Lacked 0 0 (K.shortages sink.old) (K.shortages sink.new) 0 0 result }
{
    let out = host.out();
    let wrote = write(sink, out);
    let n = out.len();
    host.taken(n, port);
    wrote
}

/// Lets a framer take an octet more.
fn follow(framer: &mut Framer, octet: u8)
    ensures { (answer : Answer) × Takes framer.old (octet ∷ []) answer framer.new }
{
    match framer.take(&[octet]) {
        Taken::Whole(_, _) => {}
        Taken::More => {}
        Taken::Refused(_, _) => {}
    }
}

/// Feeds one octet to a host, which a framer follows, and writes what it says. It needs a host that refused nothing.
fn hear_octet<P, L: FedHost<P>, K: Sink>(
    host: &mut L,
    framer: &mut Framer,
    octet: u8,
    sink: &mut K,
    port: &mut P,
) -> Result<(), ListenFault>
    requires sound { L.is_sound host.old port.old }
    ensures hears { HearsOneOn (L.profile host.old) (spot (L.framing host.old) (L.stands host.old port.old) (beside (K.content sink.old) L.faults L.shortages port.old)) (spot (L.framing host.new) (L.stands host.new port.new) (beside (K.content sink.new) L.faults L.shortages port.new)) octet result }
    ensures alike { (first : Begun L.State) (octets : List ℕ) (before : Beside) → Fares (L.profile host.old) first octets (L.framing host.old) (L.stands host.old port.old) before (beside (K.content sink.old) L.faults L.shortages port.old) → framer.old ≡ L.framing host.old → OnOk result (framer.new ≡ L.framing host.new) }
    ensures sound { OnOk result (L.is_sound host.new port.new) }
    ensures profile { OnOk result (L.profile host.new ≡ L.profile host.old) }
    ensures counts { Counts (K.faults sink.old) (K.faults sink.new) (K.shortages sink.old) (K.shortages sink.new) ListenFault.WriteFault result }
    ensures port { L.shortages port.old ≤ L.shortages port.new }
    ensures lacked { Lacked 0 0 (K.shortages sink.old) (K.shortages sink.new) (L.shortages port.old) (L.shortages port.new) result }
    ensures no_read { IsErrOf result ListenFault.ReadFault → ⊥ }
{
    let refusal = match host.feed(&[octet], port) {
        Ok(()) => {
            follow(framer, octet);
            return match say(host, port, sink) {
                Ok(()) => Ok(()),
                Err(fault) => Err(fault),
            };
        }
        Err(refusal) => refusal,
    };
    if is_short(refusal) {
        return Err(ListenFault::NoMemory);
    }
    match say(host, port, sink) {
        Ok(()) => Err(told(refusal)),
        Err(fault) => Err(fault),
    }
}

/// Feeds a piece to a host, octet by octet, which a framer follows, and writes what it says. It needs a host that refused nothing.
pub(crate) fn hear_piece<P, L: FedHost<P>, K: Sink>(
    host: &mut L,
    framer: &mut Framer,
    piece: &[u8],
    sink: &mut K,
    port: &mut P,
) -> Result<(), ListenFault>
    requires sound { L.is_sound host.old port.old }
    ensures hears { HearsOn (L.profile host.old) (spot (L.framing host.old) (L.stands host.old port.old) (beside (K.content sink.old) L.faults L.shortages port.old)) (spot (L.framing host.new) (L.stands host.new port.new) (beside (K.content sink.new) L.faults L.shortages port.new)) piece.now result }
    ensures alike { (first : Begun L.State) (octets : List ℕ) (before : Beside) → length octets + length piece.now ≤ input_limit → Fares (L.profile host.old) first octets (L.framing host.old) (L.stands host.old port.old) before (beside (K.content sink.old) L.faults L.shortages port.old) → framer.old ≡ L.framing host.old → OnOk result (framer.new ≡ L.framing host.new) }
    ensures sound { OnOk result (L.is_sound host.new port.new) }
    ensures profile { OnOk result (L.profile host.new ≡ L.profile host.old) }
    ensures counts { Counts (K.faults sink.old) (K.faults sink.new) (K.shortages sink.old) (K.shortages sink.new) ListenFault.WriteFault result }
    ensures port { L.shortages port.old ≤ L.shortages port.new }
    ensures lacked { Lacked 0 0 (K.shortages sink.old) (K.shortages sink.new) (L.shortages port.old) (L.shortages port.new) result }
    ensures no_read { IsErrOf result ListenFault.ReadFault → ⊥ }
{
    for i in 0..piece.len() {
        match hear_octet(host, framer, piece[i], sink, port) {
            Ok(()) => {}
            Err(fault) => return Err(fault),
        }
    }
    Ok(())
}
