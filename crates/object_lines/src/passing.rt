//! One pass over the talk of a link, for all its channels: nothing is held of what was said but what it means.

ghost use Rattle.std.specs.Prelude.{◌≡◌, ◌++◌, ◌∷◌, [], false, OnOk, map, fold};
ghost use Rattle.std.specs.List.{flat_map, list_any};
ghost use Rattle.l2cap_signal.specs.Reading.{answers};
ghost use Rattle.link_talk.specs.declared.channel.Channel.{Channel as PlainChannel};
ghost use Rattle.link_talk.specs.Sayings.{Command as Says, said_by};
ghost use Rattle.link_talk.specs.Channels.{is_owner, fresh, entry_after};
ghost use Rattle.link_talk.specs.Packets.{carrier};
ghost use Rattle.link_readers.specs.Lent.{plain_saying, plain_meaning};
ghost use Rattle.link_readers.specs.talk_laws.specs.LinkPass.{kept_with};
ghost use Rattle.object_lines.specs.Tallies.{plain_told};
ghost use Rattle.object_lines.specs.Matters.{no_matter, matter_passing, told_passing};
ghost use Rattle.object_lines.specs.Matter.{plain_matter};
ghost use Rattle.object_lines.specs.Passes.{no_telling, telling_after, taken_on, taken_mode, kept_heard, told_heard, kept_behind, kept_entries, plain_kept, plain_telling};

use crate::matter::Matter;
use crate::octets::channel_of;
use crate::taking::{Taken, taken_in};
use crate::tally::Told;
use bt_base::NoMemory;
use capture::Flow;
use l2cap_signal::signals_of;
use link_readers::{Entry, Meaning, Requests, Saying, made_by, sense_in};
use link_talk::{Channel, Party};
use std::alloc::Global;

/// The channel of signalling commands.
const SIGNALLING: u16 = 0x0001;

/// A channel and what became of it, and what matters of what it carried.
#[derive(Debug, Drop)]
pub(crate) struct KeptChannel {
    pub(crate) entry: Entry,
    matter: Matter,
}

/// The requests of a link and its channels, and what is told of the objects that are whole.
#[derive(Debug, Drop)]
pub(crate) struct LinkPass {
    requests: Requests,
    kept: Vec<KeptChannel>,
    found: Vec<Told>,
}

impl KeptChannel {
    fn new(alloc: Global, channel: Channel) -> KeptChannel
        ensures { plain_kept result ≡ kept_with no_matter (fresh channel) }
    {
        KeptChannel {
            entry: Entry::new(alloc, channel),
            matter: Matter::new(alloc),
        }
    }

    /// A PDU more, if it goes over this channel.
    fn take(
        &mut self,
        alloc: Global,
        party: &Party,
        found: &mut Vec<Told>,
        taken: &Option<Taken<'_>>,
    ) -> Result<(), NoMemory>
        ensures entry { OnOk result (self.new.entry ≡ self.old.entry) }
        ensures matter { OnOk result (plain_matter self.new.matter ≡ matter_passing party.now (carrier self.old.entry.channel.psm) (taken_mode taken.now) (plain_matter self.old.matter) (taken_on self.old.entry.channel taken.now)) }
        ensures told { OnOk result (map plain_told found.new.items ≡ map plain_told found.old.items ++ told_passing party.now (carrier self.old.entry.channel.psm) (taken_mode taken.now) (plain_matter self.old.matter) (taken_on self.old.entry.channel taken.now)) }
    {
        let channel = self.entry.channel;
        if let Some(taken) = taken
            && taken.own == channel.own
        {
            self.matter.hear(
                alloc,
                party,
                channel.psm,
                taken.mode,
                found,
                taken.flow,
                taken.pdu,
            )?;
        }
        Ok(())
    }

    /// One saying more: the PDU that it is, and what it means.
    fn hear(
        &mut self,
        alloc: Global,
        party: &Party,
        found: &mut Vec<Told>,
        taken: &Option<Taken<'_>>,
        more: &Meaning<'_>,
    ) -> Result<(), NoMemory>
        ensures kept { OnOk result (plain_kept self.new ≡ kept_heard party.now taken.now (plain_meaning more.now) (plain_kept self.old)) }
        ensures told { OnOk result (map plain_told found.new.items ≡ map plain_told found.old.items ++ told_heard party.now taken.now (plain_kept self.old)) }
    {
        self.take(alloc, party, found, taken)?;
        self.entry.hear(more)
    }
}

fn hear_each(
    alloc: Global,
    party: &Party,
    kept: &mut [KeptChannel],
    found: &mut Vec<Told>,
    taken: &Option<Taken<'_>>,
    more: &Meaning<'_>,
) -> Result<(), NoMemory>
    ensures kept { OnOk result (map plain_kept kept.new ≡ map (kept_heard party.now taken.now (plain_meaning more.now)) (map plain_kept kept.old)) }
    ensures told { OnOk result (map plain_told found.new.items ≡ map plain_told found.old.items ++ flat_map (told_heard party.now taken.now) (map plain_kept kept.old)) }
{
    for one in kept.iter_mut() {
        one.hear(alloc, party, found, taken, more)?;
    }
    Ok(())
}

fn is_owned(kept: &[KeptChannel], channel: &Channel) -> bool
    ensures { result ≡ list_any (is_owner channel.now) (kept_entries kept.now) }
{
    for one in kept {
        if one.entry.is_owner(channel) {
            return true;
        }
    }
    false
}

/// Adds the channel that a saying makes, where its endpoints are free.
fn add(alloc: Global, kept: &mut Vec<KeptChannel>, more: &Meaning<'_>) -> Result<(), NoMemory>
    ensures { OnOk result (map plain_kept kept.new.items ≡ kept_behind (plain_meaning more.now) (map plain_kept kept.old.items)) }
{
    let Some(channel) = made_by(more) else {
        return Ok(());
    };
    if is_owned(kept, &channel) {
        return Ok(());
    }
    kept.push(KeptChannel::new(alloc, channel))?;
    Ok(())
}

/// What becomes of all channels with one saying more.
fn hear_all(
    alloc: Global,
    party: &Party,
    kept: &mut Vec<KeptChannel>,
    found: &mut Vec<Told>,
    taken: &Option<Taken<'_>>,
    more: &Meaning<'_>,
) -> Result<(), NoMemory>
    ensures kept { OnOk result (map plain_kept kept.new.items ≡ kept_behind (plain_meaning more.now) (map (kept_heard party.now taken.now (plain_meaning more.now)) (map plain_kept kept.old.items))) }
    ensures told { OnOk result (map plain_told found.new.items ≡ map plain_told found.old.items ++ flat_map (told_heard party.now taken.now) (map plain_kept kept.old.items)) }
{
    hear_each(alloc, party, kept, found, taken, more)?;
    add(alloc, kept, more)?;
    Ok(())
}

impl LinkPass {
    pub(crate) fn new(alloc: Global) -> LinkPass
        ensures { plain_telling result ≡ no_telling }
    {
        LinkPass {
            requests: Requests::new(alloc),
            kept: Vec::new(alloc),
            found: Vec::new(alloc),
        }
    }

    /// What is told of the objects that are whole.
    pub(crate) fn into_found(self) -> Vec<Told>
        ensures { map plain_told result.items ≡ map plain_told self.found.items }
    {
        self.found
    }

    /// One saying more.
    fn hear(&mut self, alloc: Global, party: &Party, saying: &Saying<'_>) -> Result<(), NoMemory>
        ensures { OnOk result (plain_telling self.new ≡ telling_after party.now (plain_telling self.old) (plain_saying saying.now)) }
    {
        let sense = sense_in(saying);
        let more = self.requests.meant(&sense);
        let taken = taken_in(&self.kept, saying);
        hear_all(alloc, party, &mut self.kept, &mut self.found, &taken, &more)?;
        self.requests.hear(alloc, &sense)?;
        Ok(())
    }

    /// The commands of a payload.
    fn hear_signals(
        &mut self,
        alloc: Global,
        party: &Party,
        flow: Flow,
        payload: &[u8],
    ) -> Result<(), NoMemory>
        ensures { OnOk result (plain_telling self.new ≡ fold (telling_after party.now) (plain_telling self.old) (map (Says flow) (answers payload.now))) }
    {
        let mut signals = signals_of(payload);
        while let Some(given) = signals.next() {
            self.hear(alloc, party, &Saying::Command(flow, given))?;
        }
        Ok(())
    }

    /// What a PDU says.
    pub(crate) fn hear_pdu(
        &mut self,
        alloc: Global,
        party: &Party,
        flow: Flow,
        octets: &[u8],
    ) -> Result<(), NoMemory>
        ensures { OnOk result (plain_telling self.new ≡ fold (telling_after party.now) (plain_telling self.old) (said_by (record { flow = flow; octets = octets.now }))) }
    {
        if channel_of(octets) == SIGNALLING {
            return self.hear_signals(alloc, party, flow, octets.get(4..).unwrap_or(&[]));
        }
        self.hear(alloc, party, &Saying::Carried(flow, octets))
    }
}
