use bt_base::Shelf;
use codec_tests::tables::rows;
use push_script::*;
use ready_ports::{MemShelf, MemSink};
use std::alloc::Global;

fn refusal_of(alloc: Global, text: &[u8]) -> Option<(u32, ScriptRefusal)> {
    match scenario_of(alloc, text) {
        Err(ScriptFault::Refused(line, refusal)) => Some((line, refusal)),
        _ => None,
    }
}

/// Texts, and the line and the reason of their refusal.
const REFUSALS: [(&[u8], u32, ScriptRefusal); 13] = [
    (b"", 1, ScriptRefusal::NoTransport),
    (
        b"transport l2cap\ncolor red\n",
        2,
        ScriptRefusal::UnknownKey,
    ),
    (
        b"transport l2cap\nwindow 64\n",
        2,
        ScriptRefusal::OutOfRange,
    ),
    (b"transport l2cap\nradio\n", 2, ScriptRefusal::NoObject),
    (b"# none\n\ntransport air", 3, ScriptRefusal::BadLine),
    (b"chunk 1\nchunk 2\n", 2, ScriptRefusal::Repeated),
    (b"object \n", 1, ScriptRefusal::OutOfRange),
    (
        b"transport l2cap\nobject a\nradio\n0 pass\n",
        4,
        ScriptRefusal::OutOfRange,
    ),
    (b"srm off\n\xFF\n", 2, ScriptRefusal::NotUtf8),
    (
        b"transport rfcomm\nobject a\nradio\n1 lose ab",
        4,
        ScriptRefusal::LossyRfcomm,
    ),
    (
        b"srm on\ntransport rfcomm\nobject a\nobject b\nradio\n1 cancel\n1 cut ba 1",
        7,
        ScriptRefusal::LossyRfcomm,
    ),
    (
        b"transport rfcomm\nobject a\nradio\n1 damage ab 3 0001",
        4,
        ScriptRefusal::OutOfRange,
    ),
    (b"window 32\nmps 47\n", 2, ScriptRefusal::OutOfRange),
];

#[test]
fn refusals_with_their_lines(rt: HostRuntime) {
    for (text, line, refusal) in rows(&REFUSALS) {
        assert!(rt; refusal_of(rt.alloc(), *text) == Some((*line, *refusal)));
    }
}

/// Whether a scenario is written as that text.
fn is_text(alloc: Global, scenario: &Scenario, whole: &[u8]) -> bool {
    match put_scenario(alloc, scenario) {
        Ok(text) => text.as_slice() == whole,
        Err(_) => false,
    }
}

/// Whether a text is a scenario of that whole text.
fn is_read_as(alloc: Global, text: &[u8], whole: &[u8]) -> bool {
    match scenario_of(alloc, text) {
        Ok(scenario) => is_text(alloc, &scenario, whole),
        Err(_) => false,
    }
}

const SHORT: &[u8] =
    b"object gr\xC3\xB6\xC3\x9Fe.txt\ntransport l2cap\nacl 27 1\nchunk 1\nradio\n60 pass\n1 drop";

const WHOLE: &[u8] =
    b"transport l2cap\nserves both\nacl 27 1\nchunk 1\nmtu 1024\nmps 1010\nwindow 10\ntries 4\ncredits 7\nobex 1024\nsrm off\nobject gr\xC3\xB6\xC3\x9Fe.txt\nradio\n60 pass\n1 drop\n";

const REPORT: &[u8] =
    b"1 refused D0 gr\xC3\xB6\xC3\x9Fe.txt\nkept 0\nbuffers 8 2\nwindow 10 0\ncredits 0 0\n";

const PEAKS: Peaks = Peaks {
    buffers_a: 8,
    buffers_b: 2,
    window_a: 10,
    window_b: 0,
    credits_a: 0,
    credits_b: 0,
};

/// Whether the report of a scenario is that text.
fn reports(alloc: Global, scenario: &Scenario) -> bool {
    match MemSink::new(alloc, &[]) {
        Ok(mut sink) => {
            scenario.names.len() == 1
                && put_report(scenario, &[Outcome::Refused(0xD0)], 0, &PEAKS, &mut sink).is_ok()
                && sink.octets() == REPORT
        }
        Err(_) => false,
    }
}

/// Whether the short text is read, and its report written.
fn short_is_reported(alloc: Global) -> bool {
    match scenario_of(alloc, SHORT) {
        Ok(scenario) => {
            scenario.script.at(1) == Some((1, Word::Drop)) && reports(alloc, &scenario)
        }
        Err(_) => false,
    }
}

#[test]
fn written_again(rt: HostRuntime) {
    assert!(rt; is_read_as(rt.alloc(), SHORT, WHOLE));
    assert!(rt; is_read_as(rt.alloc(), WHOLE, WHOLE));
    assert!(rt; short_is_reported(rt.alloc()));
}

#[test]
fn words_and_outcomes(rt: HostRuntime) {
    let mut into = [b'.'; 24];
    let word = Word::Damage {
        way: Way::Ba,
        at: 65534,
        mask: 0x0A1F,
    };
    let n = put_word(&word, &mut into);
    assert!(rt; into[..n] == b"damage ba 65534 0A1F"[..]);
    let n = put_outcome(&Outcome::PeerFault(3, 12), &mut into);
    assert!(rt; into[..n] == b"peer-fault 3 12"[..]);
    let n = put_word(&Word::Timer(Side::B), &mut into);
    assert!(rt; into[..n] == b"timer b"[..]);
}

/// Texts, and the whole texts of the scenarios that they are.
const READ: [(&[u8], &[u8]); 3] = [
    (
        b"transport rfcomm\nobject a",
        b"transport rfcomm\nserves both\nacl 1021 8\nchunk 1024\nmtu 1024\nmps 1010\nwindow 10\ntries 4\ncredits 7\nobex 1024\nsrm off\nobject a\nradio\n",
    ),
    (
        b"serves rfcomm\ncredits 1\nobject b\ntransport rfcomm\nobject a\nradio\n1 timer b\n2 cancel\n3 drop",
        b"transport rfcomm\nserves rfcomm\nacl 1021 8\nchunk 1024\nmtu 1024\nmps 1010\nwindow 10\ntries 4\ncredits 1\nobex 1024\nsrm off\nobject b\nobject a\nradio\n1 timer b\n2 cancel\n3 drop\n",
    ),
    (
        b"transport l2cap\nserves l2cap\nmtu 255\nmps 48\nwindow 63\ntries 20\nobex 32767\nsrm on\nobject a\nradio\n1 lose ba\n1 repeat ab\n1 damage ab 4 0001\n1 cut ba 65535\n4294967295 timer a",
        b"transport l2cap\nserves l2cap\nacl 1021 8\nchunk 1024\nmtu 255\nmps 48\nwindow 63\ntries 20\ncredits 7\nobex 32767\nsrm on\nobject a\nradio\n1 lose ba\n1 repeat ab\n1 damage ab 4 0001\n1 cut ba 65535\n4294967295 timer a\n",
    ),
];

#[test]
fn every_key_and_word_is_read(rt: HostRuntime) {
    for (text, whole) in rows(&READ) {
        assert!(rt; is_read_as(rt.alloc(), *text, *whole));
    }
}

const LOSING: &[u8] =
    b"transport l2cap\nsrm on\nwindow 32\nobject card.vcf\nobject photo.jpg\nobject gr\xC3\xB6\xC3\x9Fe.txt\nradio\n60 pass\n1 lose ab\n200 pass\n1 lose ba\n1 repeat ab\n6455000 pass";

const LOSING_WHOLE: &[u8] =
    b"transport l2cap\nserves both\nacl 1021 8\nchunk 1024\nmtu 1024\nmps 1010\nwindow 32\ntries 4\ncredits 7\nobex 1024\nsrm on\nobject card.vcf\nobject photo.jpg\nobject gr\xC3\xB6\xC3\x9Fe.txt\nradio\n60 pass\n1 lose ab\n200 pass\n1 lose ba\n1 repeat ab\n6455000 pass\n";

/// Whether two scenarios have the same settings.
fn are_set_alike(a: &Scenario, b: &Scenario) -> bool {
    a.settings == b.settings
        && a.acl_length == b.acl_length
        && a.acl_count == b.acl_count
        && a.chunk == b.chunk
}

/// Whether they have the same three names and the same six words.
fn are_alike(a: &Scenario, b: &Scenario) -> bool {
    let mut alike = a.names.len() == 3 && a.script.len() == 6;
    for i in 0..3 {
        alike = alike && a.names.at(i) == b.names.at(i);
    }
    for i in 0..6 {
        alike = alike && a.script.at(i) == b.script.at(i);
    }
    alike
}

/// Whether a scenario that is read of the whole text is the same as this.
fn is_again(alloc: Global, scenario: &Scenario) -> bool {
    match scenario_of(alloc, LOSING_WHOLE) {
        Ok(again) => {
            are_set_alike(&again, scenario)
                && are_alike(&again, scenario)
                && again.settings.window == 32
                && again.settings.srm
                && again.script.at(4) == Some((1, Word::Repeat(Way::Ab)))
        }
        Err(_) => false,
    }
}

/// Whether the losing text and its whole text are one scenario.
fn losing_is_again(alloc: Global) -> bool {
    match scenario_of(alloc, LOSING) {
        Ok(scenario) => is_again(alloc, &scenario),
        Err(_) => false,
    }
}

#[test]
fn three_objects_with_losses(rt: HostRuntime) {
    assert!(rt; is_read_as(rt.alloc(), LOSING, LOSING_WHOLE));
    assert!(rt; losing_is_again(rt.alloc()));
}

/// Numbers, and of what they make: the size and the front of the first object, and the text.
const MADE: [(u32, u32, [u8; 4], &[u8]); 2] = [
    (
        1,
        26838,
        [84, 246, 189, 223],
        b"transport rfcomm\nobject m1\nobject m2\nobject m3\nobject m4\nobject m5\nobject m6\nobject m7\nobject m8\nradio\n1581248 pass",
    ),
    (
        2,
        20908,
        [78, 19, 149, 19],
        b"transport l2cap\nobject m1\nobject m2\nobject m3\nobject m4\nobject m5\nobject m6\nobject m7\nobject m8\nradio\n40 pass\n1 lose ab\n1 repeat ab\n4751424 pass",
    ),
];

/// The front of an object on a shelf.
fn front_of(shelf: &mut MemShelf, name: &str) -> [u8; 4] {
    let mut front = [0; 4];
    match shelf.fill(name, 0, &mut front) {
        Ok(()) => front,
        Err(_) => [0; 4],
    }
}

/// Whether a scenario is written as the one is that a text states.
fn is_stated(alloc: Global, scenario: &Scenario, text: &[u8]) -> bool {
    match put_scenario(alloc, scenario) {
        Ok(whole) => is_read_as(alloc, text, whole.as_slice()),
        Err(_) => false,
    }
}

/// Whether the scenario that is made of a number is the one that a text states.
fn is_made(alloc: Global, shelf: &mut MemShelf, number: u32, text: &[u8]) -> bool {
    match make_scenario(alloc, number, shelf) {
        Ok(made) => is_stated(alloc, &made, text),
        Err(_) => false,
    }
}

/// Whether it is made so on a new shelf, with a first object of that size and front.
fn is_made_with(alloc: Global, number: u32, size: u32, front: &[u8; 4], text: &[u8]) -> bool {
    match MemShelf::new(alloc, &[]) {
        Ok(mut shelf) => {
            is_made(alloc, &mut shelf, number, text)
                && shelf.size("m1") == Ok(size)
                && front_of(&mut shelf, "m1") == *front
        }
        Err(_) => false,
    }
}

#[test]
fn made_of_two_numbers(rt: HostRuntime) {
    for (number, size, octets, text) in rows(&MADE) {
        assert!(rt; is_made_with(rt.alloc(), *number, *size, octets, *text));
    }
}

/// Texts, and the words that they are.
const WORDS: [(&[u8], Option<Word>); 14] = [
    (b"pass", Some(Word::Pass)),
    (b"lose ab", Some(Word::Lose(Way::Ab))),
    (b"repeat ba", Some(Word::Repeat(Way::Ba))),
    (
        b"damage ab 65534 00FF",
        Some(Word::Damage {
            way: Way::Ab,
            at: 65534,
            mask: 0x00FF,
        }),
    ),
    (
        b"cut ba 1",
        Some(Word::Cut {
            way: Way::Ba,
            packets: 1,
        }),
    ),
    (b"timer b", Some(Word::Timer(Side::B))),
    (b"drop", Some(Word::Drop)),
    (b"cancel", Some(Word::Cancel)),
    (b"", None),
    (b"1 pass", None),
    (b"pass ", None),
    (b"damage ab 3 00FF", None),
    (b"damage ab 04 00FF", None),
    (b"damage ab 4 00ff", None),
];

#[test]
fn words_from_their_texts(rt: HostRuntime) {
    for (text, word) in rows(&WORDS) {
        assert!(rt; word_of(*text) == *word);
    }
}

/// Texts, and the outcomes that they are.
const OUTCOMES: [(&[u8], Option<Outcome>); 15] = [
    (b"done", Some(Outcome::Done)),
    (b"link-lost", Some(Outcome::LinkLost)),
    (b"retry-limit", Some(Outcome::RetryLimit)),
    (b"refused C3", Some(Outcome::Refused(0xC3))),
    (b"no-service", Some(Outcome::NoService)),
    (b"shelf", Some(Outcome::ShelfFault)),
    (b"cancelled", Some(Outcome::Cancelled)),
    (b"peer-closed", Some(Outcome::PeerClosed)),
    (b"peer-fault 3 255", Some(Outcome::PeerFault(3, 255))),
    (b"script-ended", Some(Outcome::ScriptEnded)),
    (b"", None),
    (b"refused c3", None),
    (b"refused 0C3", None),
    (b"peer-fault 3 256", None),
    (b"done\xFF", None),
];

#[test]
fn outcomes_from_their_texts(rt: HostRuntime) {
    for (text, outcome) in rows(&OUTCOMES) {
        assert!(rt; outcome_of(*text) == *outcome);
    }
}
