//! What is written of a scenario: the report on what came of it, or the line that tells why it is
//! refused.

ghost use Rattle.std.specs.Prelude.{◌≡◌, ◌+◌, ◌<◌, ◌≤◌, ◌^◌, ◌++◌, [], List, ℕ, length, codes, decimal};
ghost use Rattle.push_terms.specs.Outcomes.{outcome_text};
ghost use Rattle.push_script.specs.Reports.{push_head, push_line, peaks_text, pair_line, push_line, push_lines, report_text, Tells};
ghost use Rattle.push_script.specs.Refusals.{refusal_line};

use crate::names::Name;
use crate::refusal::ScriptRefusal;
use crate::scenario::Scenario;
use arrayvec::ArrayString;
use bt_base::{PortFault, Sink};
use push_terms::{Outcome, Peaks};

/// A part of the report that is written at once.
type ReportText = ArrayString<128>;

fn push_text(text: &mut ReportText, more: &str)
    requires room { length text.old.bytes + length more.now ≤ 128 }
    ensures { text.new.bytes ≡ text.old.bytes ++ more.now }
{
    text.push_str(more);
}

/// Adds a number of at most ten digits.
fn push_decimal(text: &mut ReportText, number: u32)
    requires room { length text.old.bytes + 10 ≤ 128 }
    ensures value { text.new.bytes ≡ text.old.bytes ++ decimal number }
    ensures short { length (decimal number) ≤ 10 }
{
    let mut buffer = itoa::Buffer::new();
    text.push_str(buffer.format(number));
}

/// What stands before the name in the line of a push.
fn head_of(number: u32, outcome: Outcome) -> ReportText
    ensures { result.bytes ≡ push_head number outcome }
{
    let mut text = ReportText::new();
    push_decimal(&mut text, number);
    push_text(&mut text, " ");
    push_text(&mut text, &outcome.text());
    push_text(&mut text, " ");
    text
}

/// Adds the line of two numbers of the hosts.
fn push_pair(text: &mut ReportText, key: &str, a: u16, b: u16)
    requires room { length text.old.bytes + length key.now + 22 ≤ 128 }
    ensures line { text.new.bytes ≡ text.old.bytes ++ pair_line key.now a b }
    ensures short { length (pair_line key.now a b) ≤ length key.now + 22 }
{
    push_text(text, key);
    push_decimal(text, a as u32);
    push_text(text, " ");
    push_decimal(text, b as u32);
    push_text(text, "\n");
}

/// The lines below those of the pushes.
fn peaks_of(kept: u32, peaks: &Peaks) -> ReportText
    ensures { result.bytes ≡ peaks_text kept peaks.now }
{
    let mut text = ReportText::new();
    push_text(&mut text, "kept ");
    push_decimal(&mut text, kept);
    push_text(&mut text, "\n");
    push_pair(&mut text, "buffers ", peaks.buffers_a, peaks.buffers_b);
    push_pair(
        &mut text,
        "window ",
        peaks.window_a as u16,
        peaks.window_b as u16,
    );
    push_pair(&mut text, "credits ", peaks.credits_a, peaks.credits_b);
    text
}

/// Writes a piece.
fn put_piece<K: Sink>(sink: &mut K, piece: &[u8]) -> Result<(), PortFault>
    ensures { Tells (K.content sink.old) (K.content sink.new) (K.faults sink.old) (K.faults sink.new) (K.shortages sink.old) (K.shortages sink.new) piece.now result }
{
    sink.put(piece)
}

/// Writes a text and a line feed.
fn put_ended<K: Sink>(sink: &mut K, text: &[u8]) -> Result<(), PortFault>
    ensures { Tells (K.content sink.old) (K.content sink.new) (K.faults sink.old) (K.faults sink.new) (K.shortages sink.old) (K.shortages sink.new) (text.now ++ codes "\n") result }
{
    if let Err(fault) = put_piece(sink, text) {
        return Err(fault);
    }
    put_piece(sink, b"\n")
}

/// Writes the line of a push.
fn put_push<K: Sink>(
    sink: &mut K,
    number: u32,
    outcome: Outcome,
    name: &str,
) -> Result<(), PortFault>
    ensures { Tells (K.content sink.old) (K.content sink.new) (K.faults sink.old) (K.faults sink.new) (K.shortages sink.old) (K.shortages sink.new) (push_line number outcome name.now) result }
{
    let head = head_of(number, outcome);
    if let Err(fault) = put_piece(sink, head.as_str().as_bytes()) {
        return Err(fault);
    }
    put_ended(sink, name.as_bytes())
}

/// Writes the lines of the pushes.
fn put_pushes<K: Sink>(sink: &mut K, outcomes: &[Outcome], names: &[Name]) -> Result<(), PortFault>
    requires each { length outcomes.now ≡ length names.now }
    requires few { length names.now ≤ 64 }
    ensures { Tells (K.content sink.old) (K.content sink.new) (K.faults sink.old) (K.faults sink.new) (K.shortages sink.old) (K.shortages sink.new) (push_lines 1 outcomes.now names.now) result }
{
    for (i, name) in names.iter().enumerate() {
        if let Err(fault) = put_push(sink, i as u32 + 1, outcomes[i], name.text()) {
            return Err(fault);
        }
    }
    Ok(())
}

/// Writes the report on a scenario: a line for each object with its number, what came of it and its
/// name, then how many objects were kept and the greatest values that the run reached.
///
/// It needs as many outcomes as the scenario has objects. A fault of the sink is answered, and a
/// front of the report may then have been written.
pub fn put_report<K: Sink>(
    scenario: &Scenario,
    outcomes: &[Outcome],
    kept: u32,
    peaks: &Peaks,
    sink: &mut K,
) -> Result<(), PortFault>
    requires each { length outcomes.now ≡ length scenario.now.names }
    ensures { Tells (K.content sink.old) (K.content sink.new) (K.faults sink.old) (K.faults sink.new) (K.shortages sink.old) (K.shortages sink.new) (report_text scenario.now.names outcomes.now kept peaks.now) result }
{
    if let Err(fault) = put_pushes(sink, outcomes, scenario.names.as_slice()) {
        return Err(fault);
    }
    let text = peaks_of(kept, peaks);
    put_piece(sink, text.as_str().as_bytes())
}

/// The line of a refusal.
fn refusal_of(line: u32, refusal: ScriptRefusal) -> ReportText
    ensures { result.bytes ≡ refusal_line line refusal }
{
    let mut text = ReportText::new();
    push_text(&mut text, "refused line ");
    push_decimal(&mut text, line);
    push_text(&mut text, " ");
    push_text(&mut text, refusal.name());
    push_text(&mut text, "\n");
    text
}

/// Writes the line that tells of a refused scenario: the number of the line, counted from 1, and the
/// name of the refusal. A fault of the sink is answered, and a front of the line may then have been
/// written.
pub fn put_refusal<K: Sink>(
    line: u32,
    refusal: ScriptRefusal,
    sink: &mut K,
) -> Result<(), PortFault>
    ensures { Tells (K.content sink.old) (K.content sink.new) (K.faults sink.old) (K.faults sink.new) (K.shortages sink.old) (K.shortages sink.new) (refusal_line line refusal) result }
{
    let text = refusal_of(line, refusal);
    put_piece(sink, text.as_str().as_bytes())
}
