//! Scenarios that are made from a number.

ghost use Rattle.std.specs.Prelude.{◌≡◌, ◌+◌, ◌<◌, ◌≤◌, All, Some, length, IfOk, OnOk};
ghost use Rattle.std.specs.List.{AllByRecursion, sum_by};
ghost use Rattle.push_script.specs.Names.{IsName};
ghost use Rattle.push_script.specs.Runs.{IsRun, IsBorne};
ghost use Rattle.push_script.specs.Reading.{script_of, with_defaults};
ghost use Rattle.push_script.specs.Made.{next_state, drawn, state_after, length_of_draw, made_octets, lengths_from, objects_from, made_names, first_state, made_objects, made_transport, made_runs, made_script, shelved, object_need, stated_only, IsPartlyShelved};

use crate::names::{Name, Names};
use crate::reading::{no_draft, scenario_with};
use crate::runs::Runs;
use crate::scenario::Scenario;
use bt_base::{NoMemory, Transport};
use push_terms::{Way, Word};
use ready_ports::MemShelf;
use std::alloc::Global;

/// The generator of the draws: a linear congruential one, whose upper bits are drawn.
#[derive(Drop)]
pub(crate) struct Draws {
    state: u32,
    ghost small: { state < 2147483648 },
}

impl Draws {
    /// The draws of a number.
    pub(crate) fn new(number: u32) -> Draws
        ensures { result.state ≡ first_state number }
    {
        Draws {
            state: number % 2_147_483_648,
        }
    }

    /// The next draw.
    pub(crate) fn draw(&mut self) -> u16
        ensures draw { result ≡ drawn (next_state self.old.state) }
        ensures state { self.new.state ≡ next_state self.old.state }
    {
        let next = (1_103_515_245 * self.state as u64 + 12345) % 2_147_483_648;
        self.state = next as u32;
        (self.state / 65536) as u16
    }

    /// The length of an object.
    fn length(&mut self) -> u32
        ensures length { result ≡ length_of_draw (drawn (next_state self.old.state)) }
        ensures state { self.new.state ≡ next_state self.old.state }
        ensures short { result < 30000 }
    {
        20000 + self.draw() as u32 % 10000
    }

    /// The octets of an object.
    fn octets(&mut self, alloc: Global, length: u32) -> Result<Vec<u8>, NoMemory>
        ensures octets { IfOk result (λ octets. octets.items ≡ made_octets length self.old.state) }
        ensures state { OnOk result (self.new.state ≡ state_after length self.old.state) }
    {
        let mut octets = Vec::new(alloc);
        for _ in 0..length {
            octets.push((self.draw() % 256) as u8)?;
        }
        Ok(octets)
    }

    /// The lengths of eight objects.
    fn lengths(&mut self) -> [u32; 8]
        ensures lengths { result ≡ lengths_from self.old.state }
        ensures state { self.new.state ≡ state_after 8 self.old.state }
        ensures short { AllByRecursion (λ n. n < 30000) result }
    {
        [
            self.length(),
            self.length(),
            self.length(),
            self.length(),
            self.length(),
            self.length(),
            self.length(),
            self.length(),
        ]
    }
}

/// How many words are enough for objects of these lengths.
fn turns_of(lengths: &[u32]) -> u32
    requires few { length lengths.now ≤ 8 }
    requires short { All (λ n. n < 30000) lengths.now }
    ensures turns { result ≡ 1000 + sum_by object_need lengths.now }
    ensures some { 1000 ≤ result }
    ensures few { result ≤ 2000000 }
{
    let mut turns = 1000;
    for length in lengths {
        turns += 200 + 8 * *length;
    }
    turns
}

/// The names of eight objects.
fn made_names(alloc: Global) -> Result<Names, NoMemory>
    ensures names { IfOk result (λ names. names ≡ made_names) }
    ensures each { IfOk result (AllByRecursion IsName) }
{
    let mut names = Names::new(alloc);
    names.push(alloc, "m1")?;
    names.push(alloc, "m2")?;
    names.push(alloc, "m3")?;
    names.push(alloc, "m4")?;
    names.push(alloc, "m5")?;
    names.push(alloc, "m6")?;
    names.push(alloc, "m7")?;
    names.push(alloc, "m8")?;
    Ok(names)
}

/// Draws objects of these names and lengths, and puts them on a shelf.
fn shelve(
    alloc: Global,
    draws: &mut Draws,
    names: &[Name],
    lengths: &[u32],
    shelf: &mut MemShelf,
) -> Result<(), NoMemory>
    requires each { length lengths.now ≡ length names.now }
    ensures shelf { OnOk result (shelf.new ≡ shelved (objects_from names.now lengths.now draws.old.state) shelf.old) }
    ensures partly { IsPartlyShelved (objects_from names.now lengths.now draws.old.state) shelf.old shelf.new }
{
    for (i, name) in names.iter().enumerate() {
        let octets = draws.octets(alloc, lengths[i])?;
        shelf.add(name.text(), &octets)?;
    }
    Ok(())
}

/// The words of the radio script, where so many are enough without losses.
fn made_runs(alloc: Global, even: bool, enough: u32) -> Result<Runs, NoMemory>
    requires some { 1 ≤ enough }
    requires few { enough ≤ 2000000 }
    ensures runs { IfOk result (λ runs. runs ≡ made_runs even enough) }
    ensures spelled { IfOk result (AllByRecursion IsRun) }
    ensures borne { IfOk result (AllByRecursion (IsBorne (Some (made_transport even)))) }
{
    let mut runs = Runs::new(alloc);
    if !even {
        runs.push(enough, Word::Pass)?;
        return Ok(runs);
    }
    runs.push(40, Word::Pass)?;
    runs.push(1, Word::Lose(Way::Ab))?;
    runs.push(1, Word::Repeat(Way::Ab))?;
    runs.push(3 * enough, Word::Pass)?;
    Ok(runs)
}

fn made_transport(even: bool) -> Transport
    ensures { result ≡ made_transport even }
{
    if even {
        Transport::L2cap
    } else {
        Transport::Rfcomm
    }
}

/// Makes the scenario of a number, with eight objects, and puts these on a shelf.
///
/// The names are `m1` to `m8`, the lengths 20,000 to 29,999 octets. Lengths and octets are drawn from
/// a generator that begins at the number. An even number pushes over L2CAP, where a frame is lost and
/// one is repeated, an odd one over RFCOMM. All else is at its default. It answers `NoMemory` where
/// there was no room; the first of the objects may then lie on the shelf.
pub fn make_scenario(alloc: Global, number: u32, shelf: &mut MemShelf) -> Result<Scenario, NoMemory>
    ensures scenario { IfOk result (λ scenario. script_of scenario ≡ made_script number) }
    ensures shelf { OnOk result (shelf.new ≡ shelved (made_objects number) shelf.old) }
    ensures partly { IsPartlyShelved (made_objects number) shelf.old shelf.new }
{
    let even = number % 2 == 0;
    let mut draws = Draws::new(number);
    let lengths = draws.lengths();
    let names = made_names(alloc)?;
    let runs = made_runs(alloc, even, turns_of(&lengths))?;
    shelve(alloc, &mut draws, names.as_slice(), &lengths, shelf)?;
    Ok(with_rest(alloc, made_transport(even), names, runs))
}

/// The scenario of these parts, with all else at its default.
fn with_rest(alloc: Global, transport: Transport, names: Names, runs: Runs) -> Scenario
    requires some { 1 ≤ length names }
    requires few { length names ≤ 64 }
    requires names { AllByRecursion IsName names }
    requires runs { AllByRecursion IsRun runs }
    requires borne { AllByRecursion (IsBorne (Some transport)) runs }
    ensures { script_of result ≡ with_defaults transport (stated_only transport names runs) }
{
    let mut draft = no_draft(alloc);
    draft.keys.transport = Some(transport);
    draft.names = names;
    draft.radio = true;
    draft.runs = runs;
    scenario_with(transport, draft)
}
