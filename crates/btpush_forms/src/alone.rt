//! What the program does where no host is asked for.

ghost use Rattle.std.specs.Prelude.{◌≡◌, ◌≢◌, [], map, string_bytes, IfSome, IfOk, IfErr, Ok, Err, None};
ghost use Rattle.bt_base.specs.Counts.{HasRisen};
ghost use Rattle.h4_view.specs.View.{IsAnswered};
ghost use Rattle.command_words.specs.Forms.{AsksFor, AsksForNone};
ghost use Rattle.three_wire.specs.Carrying.{WriteRose, IsWholeInput};
ghost use Rattle.btpush_forms.specs.Carrying.{IsWell};
ghost use Rattle.btpush_forms.specs.Doing.{Does};
ghost use Rattle.btpush_forms.specs.Ports.{written};
ghost use Rattle.btpush_forms.specs.Run.{RefusesWords, HasCauses};
ghost use Rattle.btpush_forms.specs.Words.{AskForTrace, WritesTrace, hosted_form};

use crate::carrying::wire;
use crate::hosted::Hosted;
use crate::snooping::snoop;
use crate::status::Status;
use crate::usage::refuse_words;
use crate::viewing::{Viewing, decode};
use bt_base::{Sink, Source};
use command_words::{Form, form_of};
use std::alloc::Global;

/// Does what a form asks for, unless it needs hosts.
fn run_form<S: Source, K: Sink, T: Sink>(
    alloc: Global,
    form: Form,
    source: &mut S,
    sink: &mut K,
    trace: &mut T,
) -> Result<Status, Hosted>
    ensures does { IfOk result (Does form (S.content source.old) (S.content source.new) (written K.Sink sink.old) (written K.Sink sink.new) (written T.Sink trace.old) (written T.Sink trace.new)) }
    ensures wire_clean { form ≡ Form.Wire None → IsWholeInput (S.content source.old) → (HasRisen (S.faults source.old) (S.faults source.new) → ⊥) → (WriteRose (K.faults sink.old) (K.faults sink.new) (T.faults trace.old) (T.faults trace.new) → ⊥) → IfOk result IsWell }
    ensures known { result ≢ Ok Status.BadWords }
    ensures finish { result ≡ Ok Status.Ok → IfSome (S.content source.new) (λ left. left ≡ []) }
    ensures causes { IfOk result (HasCauses (S.faults source.old) (S.faults source.new) (K.faults sink.old) (K.faults sink.new) (T.faults trace.old) (T.faults trace.new)) }
    ensures source_short { IfOk result (λ status. IsAnswered (S.shortages source.old) (S.shortages source.new) (status ≡ Status.NoMemory)) }
    ensures sink_short { IfOk result (λ status. IsAnswered (K.shortages sink.old) (K.shortages sink.new) (status ≡ Status.NoMemory)) }
    ensures trace_short { IfOk result (λ status. IsAnswered (T.shortages trace.old) (T.shortages trace.new) (status ≡ Status.NoMemory)) }
    ensures trace { (WritesTrace form → ⊥) → trace.new ≡ trace.old }
    ensures hosted { (hosted : Hosted) → form ≡ hosted_form hosted → result ≡ Err hosted }
    ensures asked { IfErr result (λ hosted. form ≡ hosted_form hosted) }
    ensures untouched { (hosted : Hosted) → form ≡ hosted_form hosted → (source.new ≡ source.old) × (sink.new ≡ sink.old) × (trace.new ≡ trace.old) }
{
    match form {
        Form::Decode => Ok(decode(alloc, Viewing::Raw, source, sink)),
        Form::DecodeTagged => Ok(decode(alloc, Viewing::Tagged, source, sink)),
        Form::DecodeSnoop => Ok(decode(alloc, Viewing::Snoop, source, sink)),
        Form::Snoop(side) => Ok(snoop(alloc, side, source, sink, trace)),
        Form::Wire(number) => Ok(wire(alloc, number, source, sink, trace)),
        Form::Push => Err(Hosted::Push),
        Form::Receive => Err(Hosted::Receive),
        Form::Make(number) => Err(Hosted::Make(number)),
    }
}

/// Does what these words ask for, where that needs no hosts. The first word is the program's name and
/// is not looked at. Where they ask for a push, for a host that receives or for the scenario of a number,
/// that is answered, and then no port was touched.
///
/// `decode` shows the packets of the source in the sink, `decode --tagged` the entries of a capture of
/// two hosts, and `decode --snoop` the records of a btsnoop file. `snoop --side a` or `b` writes the
/// packets of one host of a capture to the sink as a btsnoop file, and where the source is no capture
/// the trace gets the line that tells where and why. `wire` carries the packets of the source over a
/// three-wire line to the sink, and the trace gets an entry for each packet on the line; `wire --number
/// N` loses some by the draws of N. Any other words are `BadWords`, and the sink gets a line on the
/// usage.
pub fn run_alone<S: Source, K: Sink, T: Sink>(
    alloc: Global,
    words: &Vec<String>,
    source: &mut S,
    sink: &mut K,
    trace: &mut T,
) -> Result<Status, Hosted>
    ensures does { (form : Form) → AsksFor (map string_bytes words.now.items) form → IfOk result (Does form (S.content source.old) (S.content source.new) (written K.Sink sink.old) (written K.Sink sink.new) (written T.Sink trace.old) (written T.Sink trace.new)) }
    // Whole units are all carried where no packet is to be lost and no port fails.
    ensures wire_clean { AsksFor (map string_bytes words.now.items) (Form.Wire None) → IsWholeInput (S.content source.old) → (HasRisen (S.faults source.old) (S.faults source.new) → ⊥) → (WriteRose (K.faults sink.old) (K.faults sink.new) (T.faults trace.old) (T.faults trace.new) → ⊥) → IfOk result IsWell }
    // Other words are refused, and no others.
    ensures words { AsksForNone (map string_bytes words.now.items) → IfOk result (RefusesWords (K.content sink.old) (K.content sink.new)) }
    ensures bad_words { result ≡ Ok Status.BadWords → AsksForNone (map string_bytes words.now.items) }
    // `Ok` comes only where the input was read to its end.
    ensures finish { result ≡ Ok Status.Ok → IfSome (S.content source.new) (λ left. left ≡ []) }
    // Each fault has its cause, and a shortage of memory of a port is answered.
    ensures causes { IfOk result (HasCauses (S.faults source.old) (S.faults source.new) (K.faults sink.old) (K.faults sink.new) (T.faults trace.old) (T.faults trace.new)) }
    ensures source_short { IfOk result (λ status. IsAnswered (S.shortages source.old) (S.shortages source.new) (status ≡ Status.NoMemory)) }
    ensures sink_short { IfOk result (λ status. IsAnswered (K.shortages sink.old) (K.shortages sink.new) (status ≡ Status.NoMemory)) }
    ensures trace_short { IfOk result (λ status. IsAnswered (T.shortages trace.old) (T.shortages trace.new) (status ≡ Status.NoMemory)) }
    ensures trace { (AskForTrace (map string_bytes words.now.items) → ⊥) → trace.new ≡ trace.old }
    // What needs hosts is left to the caller, unless there is no memory to read the words.
    ensures hosted { (hosted : Hosted) → AsksFor (map string_bytes words.now.items) (hosted_form hosted) → IfOk result (λ status. status ≡ Status.NoMemory) }
    ensures asked { IfErr result (λ hosted. AsksFor (map string_bytes words.now.items) (hosted_form hosted)) }
    ensures untouched { (hosted : Hosted) → AsksFor (map string_bytes words.now.items) (hosted_form hosted) → (source.new ≡ source.old) × (sink.new ≡ sink.old) × (trace.new ≡ trace.old) }
{
    match form_of(alloc, words) {
        Ok(Some(form)) => run_form(alloc, form, source, sink, trace),
        Ok(None) => Ok(refuse_words(sink)),
        Err(_) => Ok(Status::NoMemory),
    }
}
