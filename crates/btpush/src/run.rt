//! The top call: what the program does, over ports.

ghost use Rattle.std.specs.Prelude.{◌≡◌, ◌≤◌, ℕ, Option, false, [], map, string_bytes, IfSome, None};
ghost use Rattle.bt_base.specs.Counts.{HasRisen};
ghost use Rattle.btpush_forms.specs.Doing.{WiresOver};
ghost use Rattle.btpush_forms.specs.Ports.{written};
ghost use Rattle.btpush_forms.specs.Run.{Decodes, RefusesWords, HasCauses, HasEnded};
ghost use Rattle.btpush_forms.specs.Words.{AskForTrace, AskToMake};
ghost use Rattle.btpush_forms.specs.Snooping.{Snoops};
ghost use Rattle.btpush_forms.specs.Carrying.{IsWell};
ghost use Rattle.command_words.specs.Forms.{AsksFor, AsksForNone};
ghost use Rattle.making.specs.Making.{Makes};
ghost use Rattle.object_push.specs.Ports.{ports_of};
ghost use Rattle.object_push.specs.Pushing.{IsShort, Pushes};
ghost use Rattle.receiving.specs.Ports as received;
ghost use Rattle.receiving.specs.Ports.{LacksMemory};
ghost use Rattle.receiving.specs.bt_host.specs.obex_session.specs.Counting.{counts_of};
ghost use Rattle.stream_laws.specs.StreamsByLinks.{StoresByLinks};
ghost use Rattle.btpush_forms.specs.three_wire.specs.Carrying.{WriteRose, IsWholeInput};
ghost use Rattle.btpush_forms.specs.h4_view.specs.View.{IsAnswered};

use bt_base::{Inbox, Shelf, Sink, Source};
use btpush_forms::{Hosted, Status, Viewing, run_alone};
use command_words::Form;
use making::make;
use object_push::push;
use push_terms::Side;
use receiving::receive;
use std::alloc::Global;

/// Runs the program on these words, over these ports. The first word is the program's name and is
/// not looked at.
///
/// `decode` shows the packets of the source in the sink, `decode --tagged` the entries of a capture of
/// two hosts, and `decode --snoop` the records of a btsnoop file. `push` reads a scenario from the
/// source and runs it: the objects of the shelf are pushed, the inbox keeps what arrives, the trace gets
/// the capture and the sink the report. `receive` feeds the source to a host that receives objects, whose
/// octets go to the sink: the inbox keeps what arrives, and where the source is refused the trace gets the
/// line that tells where and why. `snoop --side a` or `b` writes the packets of one host of a
/// capture to the sink as a btsnoop file, and where the source is no capture the trace gets the line
/// that tells where and why. `wire` carries the packets of the source over a three-wire line to
/// the sink, and the trace gets an entry for each packet on the line; `wire --number N` loses some by
/// the draws of N. `make --number N` runs the scenario that is made from N, over ports in memory: the
/// trace gets the capture and the sink the summary, and the source, the shelf and the inbox are not
/// touched. Any other words are `BadWords`, and the sink gets a line on the usage. No object may be
/// pending in the inbox.
pub fn run<S: Source, K: Sink, T: Sink, F: Shelf, B: Inbox>(
    alloc: Global,
    words: &Vec<String>,
    source: &mut S,
    sink: &mut K,
    trace: &mut T,
    shelf: &mut F,
    inbox: &mut B,
) -> Status
    requires { B.is_pending inbox.old ≡ false }
    // What the sink gains from `decode` is the view of the input, up to and with the first refusal.
    ensures decode { AsksFor (map string_bytes words.now.items) Form.Decode → IfSome (S.content source.old) (λ input. Decodes Viewing.Raw input (S.content source.new) (K.content sink.old) (K.content sink.new) result) }
    ensures decode_tagged { AsksFor (map string_bytes words.now.items) Form.DecodeTagged → IfSome (S.content source.old) (λ input. Decodes Viewing.Tagged input (S.content source.new) (K.content sink.old) (K.content sink.new) result) }
    ensures decode_snoop { AsksFor (map string_bytes words.now.items) Form.DecodeSnoop → IfSome (S.content source.old) (λ input. Decodes Viewing.Snoop input (S.content source.new) (K.content sink.old) (K.content sink.new) result) }
    // `push` runs the scenario that the input is, or tells why it is none. The trace gains the capture of the run, or what there was of it where it
    // stopped short, and all that is said of the run is said over that capture: what the inbox gained, what was reported, and what both hosts kept to.
    ensures push { AsksFor (map string_bytes words.now.items) Form.Push → IfSome (S.content source.old) (λ input. let at = ports_of K.Sink T.Sink F.Shelf B.Inbox in Pushes input (S.content source.new) (at sink.old trace.old shelf.old inbox.old) (at sink.new trace.new shelf.new inbox.new) ((trace.new ≡ trace.old) × (shelf.new ≡ shelf.old) × (inbox.new ≡ inbox.old)) result) }
    // `receive` feeds the input to a host: the sink gains what this says, and the inbox what it stores, which is exactly what the packets spell where they
    // are orderly, neither count of the inbox rose, and memory was not wanting. It wants memory before anything happens, or where a port found none.
    ensures receive { AsksFor (map string_bytes words.now.items) Form.Receive → let counts = counts_of B.faults B.shortages in StoresByLinks (S.content source.old) (S.content source.new) (K.content sink.old) (K.content sink.new) (T.content trace.old) (T.content trace.new) (B.content inbox.old) (B.content inbox.new) (counts inbox.old) (counts inbox.new) result }
    ensures receive_memory { AsksFor (map string_bytes words.now.items) Form.Receive → result ≡ Status.NoMemory → let at = received.ports_of S.Source K.Sink T.Sink B.Inbox in LacksMemory (at source.old sink.old trace.old inbox.old) (at source.new sink.new trace.new inbox.new) }
    // `make` runs the scenario of the number over ports in memory: the trace gains its capture, and the sink its summary.
    ensures make { (number : ℕ) → AsksFor (map string_bytes words.now.items) (Form.Make number) → Makes number (written K.Sink sink.old) (written K.Sink sink.new) (written T.Sink trace.old) (written T.Sink trace.new) result }
    // `snoop` writes the packets of a host to the sink as a btsnoop file, or tells where the input is no capture.
    ensures snoop { (side : Side) → AsksFor (map string_bytes words.now.items) (Form.Snoop side) → IfSome (S.content source.old) (λ input. Snoops side input (S.content source.new) (K.content sink.old) (K.content sink.new) (T.content trace.old) (T.content trace.new) result) }
    // `wire` carries the units of the input to the sink, or the units up to where it stops, and the trace tells each packet on
    // the line. Whole units are all carried where no packet is to be lost and no port fails.
    ensures wire { (number : Option ℕ) → AsksFor (map string_bytes words.now.items) (Form.Wire number) → WiresOver number (S.content source.old) (written K.Sink sink.old) (written K.Sink sink.new) (written T.Sink trace.old) (written T.Sink trace.new) result }
    ensures wire_clean { AsksFor (map string_bytes words.now.items) (Form.Wire None) → IsWholeInput (S.content source.old) → (HasRisen (S.faults source.old) (S.faults source.new) → ⊥) → (WriteRose (K.faults sink.old) (K.faults sink.new) (T.faults trace.old) (T.faults trace.new) → ⊥) → IsWell result }
    // Other words are refused, and no others.
    ensures words { AsksForNone (map string_bytes words.now.items) → RefusesWords (K.content sink.old) (K.content sink.new) result }
    ensures bad_words { result ≡ Status.BadWords → AsksForNone (map string_bytes words.now.items) }
    // A form runs to its end only where the input was read to its end, but for a line whose rounds are spent. `make` reads none.
    ensures finish { (AskToMake (map string_bytes words.now.items) → ⊥) → result ≡ Status.Ok → IfSome (S.content source.new) (λ left. left ≡ []) }
    ensures finish_push { AsksFor (map string_bytes words.now.items) Form.Push → HasEnded result → IfSome (S.content source.new) (λ left. left ≡ []) }
    // Each fault has its cause.
    ensures causes { HasCauses (S.faults source.old) (S.faults source.new) (K.faults sink.old) (K.faults sink.new) (T.faults trace.old) (T.faults trace.new) result }
    // A shortage of memory of a port is answered, one of shelf or inbox by `WriteFault` where the trace failed too.
    ensures source_short { IsAnswered (S.shortages source.old) (S.shortages source.new) (result ≡ Status.NoMemory) }
    ensures sink_short { IsAnswered (K.shortages sink.old) (K.shortages sink.new) (result ≡ Status.NoMemory) }
    ensures trace_short { IsAnswered (T.shortages trace.old) (T.shortages trace.new) (result ≡ Status.NoMemory) }
    ensures shelf_short { IsAnswered (F.shortages shelf.old) (F.shortages shelf.new) (IsShort (T.faults trace.old) (T.faults trace.new) result) }
    ensures inbox_short { (AsksFor (map string_bytes words.now.items) Form.Receive → ⊥) → IsAnswered (B.shortages inbox.old) (B.shortages inbox.new) (IsShort (T.faults trace.old) (T.faults trace.new) result) }
    ensures inbox_stays { B.shortages inbox.old ≤ B.shortages inbox.new }
    // The objects on the shelf stay, and no count of shelf and inbox falls (of the inbox's faults, but for `receive`).
    ensures shelf_content { F.content shelf.new ≡ F.content shelf.old }
    ensures shelf_faults { F.faults shelf.old ≤ F.faults shelf.new }
    ensures inbox_faults { (AsksFor (map string_bytes words.now.items) Form.Receive → ⊥) → B.faults inbox.old ≤ B.faults inbox.new }
    // `make` leaves the source alone. Only `push`, `receive`, `make`, `snoop` and `wire` touch the trace, only `push` the shelf, and only
    // `push` and `receive` the inbox.
    ensures source { AskToMake (map string_bytes words.now.items) → source.new ≡ source.old }
    ensures trace { (AskForTrace (map string_bytes words.now.items) → ⊥) → trace.new ≡ trace.old }
    ensures shelf { (AsksFor (map string_bytes words.now.items) Form.Push → ⊥) → shelf.new ≡ shelf.old }
    ensures inbox { (AsksFor (map string_bytes words.now.items) Form.Push → ⊥) → (AsksFor (map string_bytes words.now.items) Form.Receive → ⊥) → inbox.new ≡ inbox.old }
{
    match run_alone(alloc, words, source, sink, trace) {
        Ok(status) => status,
        Err(Hosted::Push) => push(alloc, source, sink, trace, shelf, inbox),
        Err(Hosted::Receive) => receive(alloc, source, sink, trace, inbox),
        Err(Hosted::Make(number)) => make(alloc, number, sink, trace),
    }
}
