//! The form that the words of a command line ask for.

ghost use Rattle.std.specs.Prelude.{◌≡◌, IfOk, Some, None, codes, map, string_bytes};
ghost use Rattle.std.specs.Option.{option_map};
ghost use Rattle.clap.specs.Words.{first_of, found_of, rows_of};
ghost use Rattle.command_words.specs.Forms.{IsAnswered, IsNumberOf, IsSpelled, given_by, is_set};

use crate::command::the_command;
use crate::form::Form;
use clap::ArgMatches;
use clap::error::ErrorKind;
use itoa::Buffer;
use push_terms::Side;
use std::alloc::Global;

/// Memory ran out while the words were read.
#[derive(Clone, Copy, Debug, PartialEq, Eq)]
pub struct NoMemory;

/// The number whose decimal text this is.
fn number_of(text: &str) -> Option<u32>
    ensures { IsNumberOf text.now result }
{
    let Ok(number) = text.parse::<u32>() else {
        return None
    };
    let mut buffer = Buffer::new();
    if buffer.format(number) == text {
        Some(number)
    } else {
        None
    }
}

/// The form with that word and these flags, where no side and no number is given.
fn plain_form(word: &str, tagged: bool, snoop: bool) -> Option<Form>
    ensures { IsSpelled (record { form = Some word.now; tagged = tagged; snoop = snoop; side = None; number = None }) result }
{
    match (word, tagged, snoop) {
        ("decode", false, false) => Some(Form::Decode),
        ("decode", true, false) => Some(Form::DecodeTagged),
        ("decode", false, true) => Some(Form::DecodeSnoop),
        ("push", false, false) => Some(Form::Push),
        ("receive", false, false) => Some(Form::Receive),
        ("wire", false, false) => Some(Form::Wire(None)),
        _ => None,
    }
}

/// The form with that word and these flags, and a number.
fn numbered_form(word: &str, tagged: bool, snoop: bool, number: &str) -> Option<Form>
    ensures { IsSpelled (record { form = Some word.now; tagged = tagged; snoop = snoop; side = None; number = Some number.now }) result }
{
    match (word, tagged, snoop) {
        ("make", false, false) => number_of(number).map(Form::Make),
        ("wire", false, false) => number_of(number).map(|number| Form::Wire(Some(number))),
        _ => None,
    }
}

/// The form with that word and these flags, and a side.
fn sided_form(word: &str, tagged: bool, snoop: bool, side: &str) -> Option<Form>
    ensures { IsSpelled (record { form = Some word.now; tagged = tagged; snoop = snoop; side = Some side.now; number = None }) result }
{
    match (word, tagged, snoop, side) {
        ("snoop", false, false, "a") => Some(Form::Snoop(Side::A)),
        ("snoop", false, false, "b") => Some(Form::Snoop(Side::B)),
        _ => None,
    }
}

/// The text that was found under a name.
fn text_found<'a>(found: &ArgMatches<'a>, name: &str) -> Option<&'a str>
    ensures { option_map (λ text. text.now) result ≡ first_of name.now (rows_of (found_of found.now)) }
{
    found.get_str(name)
}

/// Whether a flag was found under a name.
fn is_found(found: &ArgMatches<'_>, name: &str) -> bool
    ensures { result ≡ is_set (first_of name.now (rows_of (found_of found.now))) }
{
    match text_found(found, name) {
        Some(text) => text == "true",
        None => false,
    }
}

/// The form that was found.
fn form_found(found: &ArgMatches<'_>) -> Option<Form>
    ensures { IsSpelled (given_by (rows_of (found_of found.now))) result }
{
    let tagged = is_found(found, "tagged");
    let snoop = is_found(found, "snoop");
    let Some(word) = text_found(found, "form") else {
        return None
    };
    let Some(side) = text_found(found, "side") else {
        return match text_found(found, "number") {
            None => plain_form(word, tagged, snoop),
            Some(number) => numbered_form(word, tagged, snoop, number),
        }
    };
    match text_found(found, "number") {
        None => sided_form(word, tagged, snoop, side),
        Some(_) => None,
    }
}

/// The form that the words ask for, the program's name first, which is not looked at. None where they
/// ask for none; a wish for help is none.
pub fn form_of<'a>(alloc: Global, words: &'a [String]) -> Result<Option<Form>, NoMemory>
    ensures { IfOk result (IsAnswered (map string_bytes words.now)) }
{
    let Ok(command) = the_command(alloc) else {
        return Err(NoMemory)
    };
    match command.try_get_matches_from(words) {
        Ok(found) => Ok(form_found(&found)),
        Err(fault) => match fault.kind() {
            ErrorKind::OutOfMemory => Err(NoMemory),
            _ => Ok(None),
        },
    }
}
