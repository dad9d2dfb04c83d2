use bt_base::NoMemory;
use codec_tests::tables::rows;
use command_words::{Form, form_of};
use push_terms::Side;
use std::alloc::Global;

/// Command lines behind the program's name, their words apart by blanks, and the forms that they ask
/// for.
const LINES: [(&str, Option<Form>); 26] = [
    ("decode", Some(Form::Decode)),
    ("decode --tagged", Some(Form::DecodeTagged)),
    ("--tagged decode", Some(Form::DecodeTagged)),
    ("decode --snoop", Some(Form::DecodeSnoop)),
    ("snoop --side a", Some(Form::Snoop(Side::A))),
    ("--side=b snoop", Some(Form::Snoop(Side::B))),
    ("push", Some(Form::Push)),
    ("receive", Some(Form::Receive)),
    ("make --number 0", Some(Form::Make(0))),
    ("--number=4294967295 make", Some(Form::Make(4_294_967_295))),
    ("wire", Some(Form::Wire(None))),
    ("--number 1 wire", Some(Form::Wire(Some(1)))),
    ("make", None),
    ("make --number 007", None),
    ("make --number 4294967296", None),
    ("push --tagged", None),
    ("decode --number 1", None),
    ("wire --number 01", None),
    ("wire --tagged", None),
    ("push push", None),
    ("decode --snoop --tagged", None),
    ("snoop", None),
    ("snoop --side c", None),
    ("snoop --side a --snoop", None),
    ("snoop --side a --number 1", None),
    ("--help", None),
];

/// The words of a line, the program's name ahead of them.
fn words_of(alloc: Global, line: &str) -> Result<Vec<String>, NoMemory> {
    let mut words = Vec::new(alloc);
    words.push(String::from_str(alloc, "btpush")?)?;
    for word in line.split(' ') {
        words.push(String::from_str(alloc, word)?)?;
    }
    Ok(words)
}

/// Whether a line asks for that form; memory is ample.
fn asks_for(alloc: Global, line: &str, form: Option<Form>) -> bool {
    match words_of(alloc, line) {
        Ok(words) => matches!(form_of(alloc, words.as_slice()), Ok(found) if found == form),
        Err(_) => false,
    }
}

#[test]
fn words_ask_for_forms(rt: HostRuntime) {
    for (line, form) in rows(&LINES) {
        assert!(rt; asks_for(rt.alloc(), *line, *form));
    }
}
