//! The three lines that tell what came of a run.

ghost use Rattle.std.specs.Prelude.{◌≡◌, ◌+◌, ◌≤◌, ◌++◌, length};
ghost use Rattle.push_script.specs.Reports.{Tells};
ghost use Rattle.making.specs.Summary.{number_line, summary_text};

use arrayvec::ArrayString;
use bt_base::{PortFault, Sink};

/// The text of a summary.
type SummaryText = ArrayString<128>;

/// Adds a line of a number of at most twenty digits.
fn push_line(text: &mut SummaryText, key: &str, number: u64, unit: &str)
    requires room { length text.old.bytes + length key.now + 20 + length unit.now ≤ 128 }
    ensures line { text.new.bytes ≡ text.old.bytes ++ number_line key.now number unit.now }
    ensures short { length (number_line key.now number unit.now) ≤ length key.now + 20 + length unit.now }
{
    let mut buffer = itoa::Buffer::new();
    text.push_str(key);
    text.push_str(buffer.format(number));
    text.push_str(unit);
}

/// The summary of a run.
fn summary_of(done: u32, kept: u64, octets: u64) -> SummaryText
    ensures { result.bytes ≡ summary_text done kept octets }
{
    let mut text = SummaryText::new();
    push_line(&mut text, "done ", u64::from(done), " of 8\n");
    push_line(&mut text, "kept ", kept, "\n");
    push_line(&mut text, "octets ", octets, "\n");
    text
}

/// Writes the summary of a run. It takes no memory but what the sink takes.
pub(crate) fn put_summary<K: Sink>(
    done: u32,
    kept: u64,
    octets: u64,
    sink: &mut K,
) -> Result<(), PortFault>
    ensures { Tells (K.content sink.old) (K.content sink.new) (K.faults sink.old) (K.faults sink.new) (K.shortages sink.old) (K.shortages sink.new) (summary_text done kept octets) result }
{
    let text = summary_of(done, kept, octets);
    sink.put(text.as_str().as_bytes())
}
