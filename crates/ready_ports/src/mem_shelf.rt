//! A shelf over memory.

ghost use Rattle.std.specs.Prelude.{◌≡◌, ◌<◌, ◌≤◌, ◌^◌, ◌+◌, ◌∷◌, [], Some, IfOk, OnOk, OnErr, MatchOption, length, take, drop, find, string_bytes};
ghost use Rattle.std.specs.Option.{option_copied, option_map};
ghost use Rattle.std.specs.Str.{bytes_eq};
ghost use Rattle.bt_base.specs.Counts.{HasCause, counted};
ghost use Rattle.bt_base.specs.Objects.{Object, octets_of, EndsBefore, HasAt, HasLooked};
ghost use Rattle.ready_ports.specs.Memory.{MemoryShelved, no_calls, size_answer, fill_answer};

use crate::calls::CallPlan;
use bt_base::{NoMemory, PortFault, Shelf};
use std::alloc::Global;
use std::marker::Model;

/// An object that lies on a shelf in memory.
#[derive(Drop)]
struct ShelvedObject {
    name: String,
    octets: Vec<u8>,
}

impl Model for ShelvedObject {
    ghost Value = { Object };

    ghost view = { λ object. record { name = string_bytes object.name; octets = object.octets.items } };

    ghost invariant = { λ object. length object.octets.items < 2 ^ 32 };
}

impl ShelvedObject {
    fn is_named(&self, name: &str) -> bool
        ensures { result ≡ bytes_eq self.now.name name.now }
    {
        self.name.as_str() == name
    }

    fn octets(&self) -> &[u8]
        ensures octets { result.now ≡ self.now.octets }
        ensures short { length result.now < 2 ^ 32 }
    {
        &self.octets
    }
}

/// The first object of that name.
fn object_named<'a>(objects: &'a [ShelvedObject], name: &str) -> Option<&'a ShelvedObject>
    ensures { option_copied result ≡ find (λ object. bytes_eq object.name name.now) objects.now }
{
    objects.iter().find(|object| object.is_named(name))
}

/// How many octets the object of that name has.
fn size_of(objects: &[ShelvedObject], name: &str) -> Option<u32>
    ensures { result ≡ option_map length (octets_of name.now objects.now) }
{
    match object_named(objects, name) {
        Some(object) => Some(object.octets().len() as u32),
        None => None,
    }
}

/// The `n` octets from place `at` on of the object of that name.
fn part_of<'a>(objects: &'a [ShelvedObject], name: &str, at: usize, n: usize) -> Option<&'a [u8]>
    ensures { MatchOption result (EndsBefore (at + n) (octets_of name.now objects.now)) (λ part. HasAt at part.now (octets_of name.now objects.now) × (length part.now ≡ n)) }
{
    match object_named(objects, name) {
        Some(object) => part_at(object.octets(), at, n),
        None => None,
    }
}

/// The `n` octets from place `at` on.
fn part_at(octets: &[u8], at: usize, n: usize) -> Option<&[u8]>
    ensures { MatchOption result (length octets.now < at + n) (λ part. (at + n ≤ length octets.now) × (part.now ≡ take n (drop at octets.now)) × (length part.now ≡ n)) }
{
    if octets.len() < at {
        return None;
    }
    let (_, rest) = octets.split_at(at);
    if rest.len() < n {
        return None;
    }
    let (part, _) = rest.split_at(n);
    Some(part)
}

/// A shelf of objects in memory, which tells its content.
#[derive(Drop)]
pub struct MemShelf {
    alloc: Global,
    objects: Vec<ShelvedObject>,
    calls: CallPlan,
    absences: u64,
}

impl Model for MemShelf {
    ghost Value = { MemoryShelved };

    ghost view = { λ shelf. record { objects = shelf.objects.items; calls = shelf.calls; absences = shelf.absences } };
}

impl MemShelf {
    /// An empty shelf. The calls whose numbers, from 1, are in `failing` answer `Failed`.
    pub fn new(alloc: Global, failing: &[u32]) -> Result<MemShelf, NoMemory>
        ensures { IfOk result (λ shelf. shelf ≡ record { objects = []; calls = no_calls failing.now; absences = 0 }) }
    {
        Ok(MemShelf {
            alloc,
            objects: Vec::new(alloc),
            calls: CallPlan::new(alloc, failing)?,
            absences: 0,
        })
    }

    /// Puts an object on the shelf. It takes the place of one of that name: the first of a name
    /// counts.
    pub fn add(&mut self, name: &str, octets: &[u8]) -> Result<(), NoMemory>
        requires { length octets.now < 2 ^ 32 }
        ensures ok { OnOk result (self.new ≡ record self.old { objects = record { name = name.now; octets = octets.now } ∷ self.old.objects }) }
        ensures err { OnErr result (self.new ≡ self.old) }
    {
        let object = ShelvedObject {
            name: String::from_str(self.alloc, name)?,
            octets: Vec::from_slice(self.alloc, octets)?,
        };
        self.objects.insert(0, object)?;
        Ok(())
    }

    fn miss(&mut self)
        ensures { self.new ≡ record self.old { absences = counted self.old.absences } }
    {
        self.absences = self.absences.saturating_add(1);
    }
}

impl Shelf for MemShelf {
    ghost content = { λ shelf. Some shelf.objects };

    ghost faults = { λ shelf. shelf.calls.faults };

    ghost shortages = { λ shelf. shelf.calls.shortages };

    ghost absences = { λ shelf. shelf.absences };

    fn size(&mut self, name: &str) -> Result<u32, PortFault>
        ensures size { IfOk result (λ size. option_map length (octets_of name.now self.old.objects) ≡ Some size) }
        ensures content { Some self.new.objects ≡ Some self.old.objects }
        ensures absence { HasLooked (Some self.old.objects) name.now 0 self.old.calls.faults self.new.calls.faults self.old.absences self.new.absences result }
        ensures cause { HasCause self.old.calls.faults self.new.calls.faults self.old.calls.shortages self.new.calls.shortages result }
        ensures exactly { result ≡ size_answer self.old name.now }
    {
        let Some(size) = size_of(&self.objects, name) else {
            self.miss();
            self.calls.call()?;
            return Err(self.calls.fail());
        };
        self.calls.call()?;
        Ok(size)
    }

    fn fill(&mut self, name: &str, at: u32, into: &mut [u8]) -> Result<(), PortFault>
        ensures filled { OnOk result (HasAt at into.new (octets_of name.now self.old.objects)) }
        ensures content { Some self.new.objects ≡ Some self.old.objects }
        ensures absence { HasLooked (Some self.old.objects) name.now (at + length into.old) self.old.calls.faults self.new.calls.faults self.old.absences self.new.absences result }
        ensures cause { HasCause self.old.calls.faults self.new.calls.faults self.old.calls.shortages self.new.calls.shortages result }
        ensures exactly { result ≡ fill_answer self.old name.now (at + length into.old) }
    {
        let Some(part) = part_of(&self.objects, name, at as usize, into.len()) else {
            self.miss();
            self.calls.call()?;
            return Err(self.calls.fail());
        };
        self.calls.call()?;
        into.copy_from_slice(part);
        Ok(())
    }
}
