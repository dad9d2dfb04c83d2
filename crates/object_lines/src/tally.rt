//! The PUTs of an object that is not whole, as far as an object's line needs them.

ghost use Rattle.std.specs.Prelude.{◌≡◌, ◌==◌, ◌||◌, ◌++◌, List, Option, Some, None, IfOk, OnOk, MatchOption, map, fold};
ghost use Rattle.std.specs.List.{AllByRecursion};
ghost use Rattle.obex_headers.specs.Packets.{PlainHeader, PlainPacket, IsHeader, IsText, units_of, headers_octets, plain_header, Shows};
ghost use Rattle.obex_headers.specs.Runs.{name_text, body_of, is_long};
ghost use Rattle.obex_headers.specs.Reader.{IsPut};
ghost use Rattle.link_talk.specs.ObjectsHeard.{put_within};
ghost use Rattle.object_lines.specs.Tallies.{told, no_tally, with_name, with_body, tally_header, is_broken, is_lacking, tally_after, told_of, left_of, told_as, told_by, plain_told, plain_tally};

use bt_base::NoMemory;
use obex_headers::{Header, HeaderValue, Packet, Phase, headers_of, name_units, packet_of};
use std::alloc::Global;

const NAME: u8 = 0x01;

const BODY: u8 = 0x48;

const END_OF_BODY: u8 = 0x49;

const PUT: u8 = 0x02;

const FINAL_PUT: u8 = 0x82;

const MOST_UNITS: usize = 255;

const MOST_OCTETS: usize = 16_777_215;

/// What is told of an object: its name as UTF-16 units, and how many octets it has.
#[derive(Debug, Drop)]
pub(crate) struct Told {
    pub(crate) name: Vec<u16>,
    pub(crate) size: usize,
}

/// What is held of the PUTs of an object that is not whole.
#[derive(Debug, Drop)]
pub(crate) struct Tally {
    name: Vec<u16>,
    named: bool,
    again: bool,
    long: bool,
    ahead: bool,
    bodied: bool,
    size: usize,
}

fn text_of<'a>(header: &Header<'a>) -> Option<&'a [u8]>
    ensures { MatchOption result (name_text (plain_header header.now) ≡ None) (λ text. name_text (plain_header header.now) ≡ Some text.now) }
{
    match header.value {
        HeaderValue::Text(text) if header.id == NAME => Some(text),
        _ => None,
    }
}

fn body<'a>(header: &Header<'a>) -> Option<&'a [u8]>
    ensures { MatchOption result (body_of (plain_header header.now) ≡ None) (λ octets. body_of (plain_header header.now) ≡ Some octets.now) }
{
    match header.value {
        HeaderValue::Octets(octets) if header.id == BODY || header.id == END_OF_BODY => {
            Some(octets)
        }
        _ => None,
    }
}

fn units(alloc: Global, text: &[u8]) -> Result<Vec<u16>, NoMemory>
    requires { IsText text.now }
    ensures { IfOk result (λ units. units.items ≡ units_of text.now) }
{
    let mut units = vec![in alloc; 0u16; text.len()]?;
    let Some(count) = name_units(text, &mut units) else {
        unreachable!()
    };
    units.truncate(count);
    Ok(units)
}

fn is_put(code: u8) -> bool
    ensures { result ≡ ((code == 0x02) || (code == 0x82)) }
{
    code == PUT || code == FINAL_PUT
}

/// The PUT that the octets are for a receiver of so many. There is none where they are another packet, or are refused.
fn put(octets: &[u8], most: u16) -> Option<Packet<'_>>
    ensures { IsPut result (put_within most octets.now) }
{
    match packet_of(octets, Phase::Request, most) {
        Ok(packet) if is_put(packet.code) => Some(packet),
        _ => None,
    }
}

impl Tally {
    pub(crate) fn new(alloc: Global) -> Tally
        ensures { plain_tally result ≡ no_tally }
    {
        Tally {
            name: Vec::new(alloc),
            named: false,
            again: false,
            long: false,
            ahead: false,
            bodied: false,
            size: 0,
        }
    }

    fn clear(&mut self)
        ensures { plain_tally self.new ≡ no_tally }
    {
        self.name.clear();
        self.named = false;
        self.again = false;
        self.long = false;
        self.ahead = false;
        self.bodied = false;
        self.size = 0;
    }

    fn add_name(&mut self, alloc: Global, text: &[u8]) -> Result<(), NoMemory>
        requires { IsText text.now }
        ensures { OnOk result (plain_tally self.new ≡ with_name (plain_tally self.old) (Some text.now)) }
    {
        let units = units(alloc, text)?;
        self.again = self.again || self.named;
        self.named = true;
        self.long = self.long || units.len() > MOST_UNITS;
        self.name.extend_from_slice(&units)?;
        Ok(())
    }

    fn add_body(&mut self, octets: &[u8])
        ensures { plain_tally self.new ≡ with_body (plain_tally self.old) (Some octets.now) }
    {
        self.ahead = self.ahead || !self.named;
        self.bodied = true;
        self.size = self.size.saturating_add(octets.len()).min(MOST_OCTETS + 1);
    }

    fn add_header(&mut self, alloc: Global, header: &Header<'_>) -> Result<(), NoMemory>
        requires { IsHeader (plain_header header.now) }
        ensures { OnOk result (plain_tally self.new ≡ tally_header (plain_tally self.old) (plain_header header.now)) }
    {
        if let Some(text) = text_of(header) {
            self.add_name(alloc, text)?;
        }
        if let Some(octets) = body(header) {
            self.add_body(octets);
        }
        Ok(())
    }

    fn add_headers(&mut self, alloc: Global, packet: &Packet<'_>) -> Result<(), NoMemory>
        ensures { OnOk result ((headers : List PlainHeader) → AllByRecursion IsHeader headers → packet.now.headers.now ≡ headers_octets headers →
            plain_tally self.new ≡ fold tally_header (plain_tally self.old) headers) }
    {
        let mut left = headers_of(packet);
        while let Some(header) = left.next() {
            self.add_header(alloc, &header)?;
        }
        Ok(())
    }

    fn is_broken(&self) -> bool
        ensures { result ≡ is_broken (plain_tally self.now) }
    {
        self.again || self.long || self.ahead || self.size > MOST_OCTETS
    }

    fn is_lacking(&self) -> bool
        ensures { result ≡ is_lacking (plain_tally self.now) }
    {
        !self.named || !self.bodied
    }

    /// What stands behind a PUT that was added: nothing where it ends the run, and what is told then.
    fn end(&mut self, alloc: Global, found: &mut Vec<Told>, ends: bool) -> Result<(), NoMemory>
        ensures left { OnOk result (plain_tally self.new ≡ left_of ends (plain_tally self.old)) }
        ensures told { OnOk result (map plain_told found.new.items ≡ map plain_told found.old.items ++ told_as ends (plain_tally self.old)) }
    {
        if self.is_broken() || ends && self.is_lacking() {
            self.clear();
            return Ok(());
        }
        if ends {
            let name = Vec::from_slice(alloc, &self.name)?;
            let size = self.size;
            found.push(Told { name, size })?;
            self.clear();
        }
        Ok(())
    }

    /// One packet more: a PUT goes on, and any other ends what there was.
    pub(crate) fn hear(
        &mut self,
        alloc: Global,
        found: &mut Vec<Told>,
        most: u16,
        octets: &[u8],
    ) -> Result<(), NoMemory>
        ensures left { OnOk result (plain_tally self.new ≡ tally_after (plain_tally self.old) (put_within most octets.now)) }
        ensures told { OnOk result (map plain_told found.new.items ≡ map plain_told found.old.items ++ told_by (plain_tally self.old) (put_within most octets.now)) }
    {
        let Some(packet) = put(octets, most) else {
            self.clear();
            return Ok(());
        };
        self.add_headers(alloc, &packet)?;
        self.end(alloc, found, packet.code == FINAL_PUT)
    }
}
