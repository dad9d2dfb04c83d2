//! The names of the objects of a scenario.

ghost use Rattle.std.specs.Prelude.{◌≡◌, ◌≤◌, ◌<◌, ◌++◌, ◌∷◌, [], List, ℕ, length, MatchOption, IfOk, OnOk, OnErr, string_bytes, slice_index_or, count_by, nat_le};
ghost use Rattle.std.specs.List.{AllByRecursion};
ghost use Rattle.push_script.specs.Names.{IsName, utf16_length, begins_character};

use bt_base::NoMemory;
use std::alloc::Global;
use std::marker::Model;

fn begins_character(octet: u8) -> bool
    ensures { result ≡ begins_character octet }
{
    octet < 0x80 || octet >= 0xC0
}

fn characters(text: &[u8]) -> usize
    ensures count { result ≡ count_by begins_character text.now }
    ensures few { result ≤ length text.now }
{
    text.iter()
        .filter(|octet| begins_character(**octet))
        .count()
}

fn long_characters(text: &[u8]) -> usize
    ensures count { result ≡ count_by (λ octet. nat_le 0xF0 octet) text.now }
    ensures few { result ≤ length text.now }
{
    text.iter().filter(|octet| **octet >= 0xF0).count()
}

/// How many UTF-16 units a text has.
pub(crate) fn utf16_length(text: &str) -> usize
    ensures { result ≡ utf16_length text.now }
{
    characters(text.as_bytes()) + long_characters(text.as_bytes())
}

/// The name of an object: 1 to 100 UTF-16 units without a NUL or a line feed.
#[derive(Drop)]
pub(crate) struct Name {
    text: String,
}

impl Model for Name {
    ghost Value = { List ℕ };

    ghost view = { λ name. string_bytes name.text };

    ghost invariant = { λ name. IsName (string_bytes name.text) };
}

impl Name {
    pub(crate) fn text(&self) -> &str
        ensures text { result.now ≡ self.now }
        ensures name { IsName self.now }
    {
        self.text.as_str()
    }
}

/// The names of at most 64 objects, in order. Each has 1 to 100 UTF-16 units, without a NUL or a
/// line feed.
#[derive(Drop)]
pub struct Names {
    names: Vec<Name>,
}

impl Model for Names {
    ghost Value = { List (List ℕ) };

    ghost view = { λ names. names.names.items };

    ghost invariant = { λ names. (length names.names.items ≤ 64) × AllByRecursion IsName names.names.items };
}

impl Names {
    /// How many there are.
    pub fn len(&self) -> usize
        ensures count { result ≡ length self.now }
        ensures few { length self.now ≤ 64 }
        ensures names { AllByRecursion IsName self.now }
    {
        self.names.len()
    }

    /// The name at that place. It is `None` exactly where `i` is not below `len`.
    pub fn at(&self, i: usize) -> Option<&str>
        ensures name { MatchOption result (length self.now ≤ i) (λ name. (i < length self.now) × (name.now ≡ slice_index_or self.now i name.now)) }
    {
        match self.names.get(i) {
            Some(name) => Some(name.text()),
            None => None,
        }
    }

    /// No names.
    pub(crate) fn new(alloc: Global) -> Names
        ensures { result ≡ [] }
    {
        Names {
            names: Vec::new(alloc),
        }
    }

    /// Adds a name at the end.
    pub(crate) fn push(&mut self, alloc: Global, name: &str) -> Result<(), NoMemory>
        requires room { length self.old < 64 }
        requires name { IsName name.now }
        ensures ok { OnOk result (self.new ≡ self.old ++ name.now ∷ []) }
        ensures err { OnErr result (self.new ≡ self.old) }
    {
        let name = Name {
            text: String::from_str(alloc, name)?,
        };
        self.names.push(name)?;
        Ok(())
    }

    pub(crate) fn as_slice(&self) -> &[Name]
        ensures { result.now ≡ self.now }
    {
        &self.names
    }
}
