//! The order of pushes.

ghost use Rattle.std.specs.Prelude.{◌≡◌, ◌≤◌, ◌<◌, ◌+◌, ◌++◌, ◌∷◌, [], vec_capacity, true, false, length, replicate, IfOk, IfSome, IsSome, ◌-◌};
ghost use Rattle.std.specs.Option.{option_map};
ghost use Rattle.push_script.specs.Names.{IsName, utf16_length};
ghost use Rattle.push_terms.specs.declared.outcome.Outcome.TheVariants.{ScriptEnded};
ghost use Rattle.room_laws.specs.world_model.specs.Pushes.{no_pushes, next_name, one_begun, one_ended};

use bt_base::NoMemory;
use push_script::{Names, Outcome};
use std::alloc::Global;
use std::marker::Model;

/// The name of an object: 1 to 100 UTF-16 units without a NUL or a line feed.
#[derive(Drop)]
struct ObjectName {
    text: String,
}

impl Model for ObjectName {
    ghost use Rattle.std.specs.Prelude.{ℕ, List, string_bytes};
    ghost use Rattle.push_script.specs.Names.{IsName};

    ghost Value = { List ℕ };

    ghost view = { λ name. string_bytes name.text };

    ghost invariant = { λ name. IsName (string_bytes name.text) };
}

impl ObjectName {
    fn new(alloc: Global, name: &str) -> Result<ObjectName, NoMemory>
        requires { IsName name.now }
        ensures { IfOk result (λ copy. copy ≡ name.now) }
    {
        Ok(ObjectName {
            text: String::from_str(alloc, name)?,
        })
    }

    fn text(&self) -> &str
        ensures text { result.now ≡ self.now }
        ensures name { IsName self.now }
    {
        self.text.as_str()
    }
}

/// The pushes of a scenario, one after the other. A clause sees the names of all objects, how many
/// pushes were begun, whether the last of them goes on, and what came of those that ended.
#[derive(Drop)]
pub(crate) struct Pushes {
    names: Vec<ObjectName>,
    begun: u16,
    going: bool,
    outcomes: Vec<Outcome>,
}

impl Model for Pushes {
    ghost use Rattle.std.specs.Prelude.{◌≡◌, ◌≤◌, ◌+◌, length, cond, vec_capacity};
    ghost use Rattle.room_laws.specs.world_model.specs.Pushes.{Pushes as Seen};

    ghost Value = { Seen };

    ghost view = { λ pushes. record { names = pushes.names.items; begun = pushes.begun; going = pushes.going; outcomes = pushes.outcomes.items } };

    ghost invariant = { λ pushes. (length pushes.names.items ≤ 64) × (pushes.begun ≤ length pushes.names.items) × (length pushes.outcomes.items + cond pushes.going 1 0 ≡ pushes.begun) × (length pushes.names.items ≤ vec_capacity pushes.outcomes) };
}

/// The names, one by one.
fn copied(alloc: Global, names: &Names) -> Result<Vec<ObjectName>, NoMemory>
    ensures { IfOk result (λ copies. copies.items ≡ names.now) }
{
    let mut copies = Vec::new(alloc);
    for i in 0..names.len() {
        let Some(name) = names.at(i) else {
            return Ok(copies);
        };
        copies.push(ObjectName::new(alloc, name)?)?;
    }
    Ok(copies)
}

/// Keeps what came of a push. It needs room for it.
fn keep(outcomes: &mut Vec<Outcome>, outcome: Outcome)
    requires { length outcomes.old.items < vec_capacity outcomes.old }
    ensures items { outcomes.new.items ≡ outcomes.old.items ++ outcome ∷ [] }
    ensures room { vec_capacity outcomes.old ≤ vec_capacity outcomes.new }
{
    let _room_was_reserved = outcomes.push(outcome);
}

impl Pushes {
    /// No push was begun. It reserves what keeps the names, and what will come of each push. `NoMemory`
    /// where that cannot be had; no other call takes memory.
    pub(crate) fn new(alloc: Global, names: &Names) -> Result<Pushes, NoMemory>
        ensures { IfOk result (λ pushes. pushes ≡ no_pushes names.now) }
    {
        let count = names.len();
        Ok(Pushes {
            names: copied(alloc, names)?,
            begun: 0,
            going: false,
            outcomes: Vec::with_capacity(alloc, count)?,
        })
    }

    /// The name of the object that is pushed next, of at most 100 UTF-16 units. None while a push
    /// goes on, and where no object is left.
    pub(crate) fn next(&self) -> Option<&str>
        ensures next { option_map (λ name. name.now) result ≡ next_name self.now }
        ensures few { IfSome result (λ name. utf16_length name.now ≤ 100) }
    {
        if self.going {
            return None;
        }
        match self.names.get(usize::from(self.begun)) {
            Some(name) => Some(name.text()),
            None => None,
        }
    }

    /// Whether a push goes on.
    pub(crate) fn going(&self) -> bool
        ensures { result ≡ self.now.going }
    {
        self.going
    }

    /// The number of the push that was begun last, and 0 where none was.
    pub(crate) fn begun(&self) -> u16
        ensures begun { result ≡ self.now.begun }
        ensures few { result ≤ 64 }
    {
        self.begun
    }

    /// The next push is begun. It needs one.
    pub(crate) fn begin(&mut self)
        requires { IsSome (next_name self.old) }
        ensures { self.new ≡ one_begun self.old }
    {
        self.begun += 1;
        self.going = true;
    }

    /// The push that goes on has ended. It needs one that goes on.
    pub(crate) fn end(&mut self, outcome: Outcome)
        requires { self.old.going ≡ true }
        ensures { self.new ≡ one_ended outcome self.old }
    {
        keep(&mut self.outcomes, outcome);
        self.going = false;
    }

    /// What came of the pushes that ended, in order.
    pub(crate) fn outcomes(&self) -> &[Outcome]
        ensures { result.now ≡ self.now.outcomes }
    {
        &self.outcomes
    }

    /// Objects that were not begun end with the script. It needs that no push goes on.
    pub(crate) fn close(&mut self)
        requires { self.old.going ≡ false }
        ensures all { self.new.outcomes ≡ self.old.outcomes ++ replicate (length self.old.names - length self.old.outcomes) ScriptEnded }
        ensures each { length self.new.outcomes ≡ length self.new.names }
        ensures same { self.new.names ≡ self.old.names }
    {
        while self.outcomes.len() < self.names.len() {
            keep(&mut self.outcomes, Outcome::ScriptEnded);
            self.begun += 1;
        }
    }
}
