//! An entry as octets.

ghost use Rattle.std.specs.Prelude.{◌≡◌, ◌+◌, ◌≤◌, ◌<◌, ◌^◌, ◌++◌, length, drop};
ghost use Rattle.bt_base.specs.Octets.{be16};
ghost use Rattle.byteorder.specs.Endian.{big_bytes};
ghost use Rattle.push_terms.specs.Words.{word_text};
ghost use Rattle.push_terms.specs.Outcomes.{outcome_text};
ghost use Rattle.capture.specs.Entries.{IsEntry, entry_octets, moved_tag, payload_of, tag_of};
ghost use Rattle.capture.specs.Lent.{plain_entry};

use crate::entry::Entry;
use crate::flow::Flow;
use h4_framing::write_unit;
use push_terms::{Outcome, Side, Word, put_outcome, put_word};

/// How many octets the text of a word or of an outcome has at most.
const LONGEST_TEXT: usize = 24;

fn moved_tag(side: Side, flow: Flow) -> u8
    ensures { result ≡ moved_tag side flow }
{
    match (side, flow) {
        (Side::A, Flow::Out) => 0x01,
        (Side::A, Flow::Into) => 0x02,
        (Side::B, Flow::Out) => 0x03,
        (Side::B, Flow::Into) => 0x04,
    }
}

fn tag_of(entry: &Entry<'_>) -> u8
    ensures { result ≡ tag_of (plain_entry entry.now) }
{
    match *entry {
        Entry::Moved { side, flow, .. } => moved_tag(side, flow),
        Entry::Acted { .. } => 0x05,
        Entry::Begun(_) => 0x06,
        Entry::Ended(..) => 0x07,
    }
}

/// Writes a number and a text behind it.
fn put_labelled(number: &[u8], text: &[u8], into: &mut [u8]) -> usize
    requires room { length number.now + length text.now ≤ length into.old }
    ensures count { result ≡ length (number.now ++ text.now) }
    ensures written { into.new ≡ (number.now ++ text.now) ++ drop result into.old }
{
    let start = number.len();
    let end = start + text.len();
    into[..start].copy_from_slice(number);
    into[start..end].copy_from_slice(text);
    end
}

fn put_acted(ordinal: u64, word: &Word, into: &mut [u8]) -> usize
    requires room { 8 + length (word_text word.now) ≤ length into.old }
    ensures count { result ≡ length (big_bytes 8 ordinal ++ word_text word.now) }
    ensures written { into.new ≡ (big_bytes 8 ordinal ++ word_text word.now) ++ drop result into.old }
{
    let mut text = [0; LONGEST_TEXT];
    let length = put_word(word, &mut text);
    put_labelled(&ordinal.to_be_bytes(), &text[..length], into)
}

fn put_ended(push: u16, outcome: &Outcome, into: &mut [u8]) -> usize
    requires room { 2 + length (outcome_text outcome.now) ≤ length into.old }
    ensures count { result ≡ length (be16 push ++ outcome_text outcome.now) }
    ensures written { into.new ≡ (be16 push ++ outcome_text outcome.now) ++ drop result into.old }
{
    let mut text = [0; LONGEST_TEXT];
    let length = put_outcome(outcome, &mut text);
    put_labelled(&push.to_be_bytes(), &text[..length], into)
}

fn put_payload(entry: &Entry<'_>, into: &mut [u8]) -> usize
    requires entry { IsEntry (plain_entry entry.now) }
    requires room { length (payload_of (plain_entry entry.now)) ≤ length into.old }
    ensures count { result ≡ length (payload_of (plain_entry entry.now)) }
    ensures written { into.new ≡ payload_of (plain_entry entry.now) ++ drop result into.old }
{
    match entry {
        Entry::Moved { unit, .. } => write_unit(unit, into),
        Entry::Acted { ordinal, word } => put_acted(*ordinal, word, into),
        Entry::Begun(push) => put_labelled(&push.to_be_bytes(), &[], into),
        Entry::Ended(push, outcome) => put_ended(*push, outcome, into),
    }
}

/// Writes the octets of an entry to the front of `into`, and answers how many there are: a tag, the
/// length of the payload in two octets, and the payload. The octets behind them stay as they are.
///
/// It needs room for them all, and an entry that has octets: an ordinal from 1 on, numbers of a
/// word within their ranges, and a packet of at most 65,535 octets with its header.
pub fn put_entry(entry: &Entry<'_>, into: &mut [u8]) -> usize
    requires entry { IsEntry (plain_entry entry.now) }
    requires room { length (entry_octets (plain_entry entry.now)) ≤ length into.old }
    ensures count { result ≡ length (entry_octets (plain_entry entry.now)) }
    ensures written { into.new ≡ entry_octets (plain_entry entry.now) ++ drop result into.old }
{
    let (head, body) = into.split_at_mut(3);
    let length = put_payload(entry, body);
    let [high, low] = (length as u16).to_be_bytes();
    head.copy_from_slice(&[tag_of(entry), high, low]);
    3 + length
}
