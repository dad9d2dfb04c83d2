//! Channels, and what becomes of each.

ghost use Rattle.std.specs.Prelude.{◌≡◌, OnOk};
ghost use Rattle.link_talk.specs.Setups.{mode_in, mode_numbered, no_setup, is_set, with_wish, with_answer, with_success, setup_after, term, is_enhanced, agreed_mode};
ghost use Rattle.link_talk.specs.Channels.{word, life_after, is_alive, is_there, fresh, entry_after, is_owner, made_by};
ghost use Rattle.link_readers.specs.Lent.{plain_part, plain_meaning, plain_setup, plain_entry};

use crate::meaning::{Meaning, Part};
use bt_base::NoMemory;
use l2cap_config::{Mode, options_of};
use link_talk::{Channel, Life, Word};
use std::alloc::Global;

/// The number of enhanced retransmission mode.
const ENHANCED: u8 = 0x03;

/// How the mode of a channel is agreed on.
#[derive(Debug, Drop)]
pub struct Setup {
    /// The mode of the host's last request, none before its first.
    pub asked: Option<Mode>,
    /// The options accepted so far of a request that comes in parts.
    pub parts: Vec<u8>,
    /// The mode of the last request of the peer that was accepted whole, none before.
    pub accepted: Option<Mode>,
}

/// A channel, and what became of it.
#[derive(Debug, Drop)]
pub struct Entry {
    pub channel: Channel,
    pub life: Life,
    pub setup: Setup,
}

/// The mode that options ask for, if they have a mode option.
fn mode_in(options: &[u8]) -> Option<Mode>
    ensures { result ≡ mode_in options.now }
{
    let Ok(options) = options_of(options) else {
        return None;
    };
    match options.mode {
        Some(mode) if mode.mode == ENHANCED => Some(Mode::Enhanced),
        Some(_) => Some(Mode::Basic),
        None => None,
    }
}

fn is_enhanced(mode: Option<Mode>) -> bool
    ensures { result ≡ is_enhanced mode }
{
    matches!(mode, Some(Mode::Enhanced))
}

fn life_after(life: Life, word: Option<Word>) -> Life
    ensures { result ≡ life_after life word }
{
    let Some(word) = word else {
        return life;
    };
    match (life, word) {
        (Life::Alive, Word::AsksEnd) => Life::Leaving,
        (Life::Alive, Word::AnswersEnd) => Life::Over,
        (Life::Alive, _) => Life::Alive,
        (Life::Leaving, Word::AsksEnd) => Life::Leaving,
        (Life::Leaving, Word::AnswersEnd) => Life::Crossed,
        (Life::Crossed, Word::AsksEnd | Word::AnswersEnd) => Life::Crossed,
        _ => Life::Over,
    }
}

impl Setup {
    fn new(alloc: Global) -> Setup
        ensures { plain_setup result ≡ no_setup }
    {
        Setup {
            asked: None,
            parts: Vec::new(alloc),
            accepted: None,
        }
    }

    /// Whether the host has asked for its options and has accepted those of the peer.
    pub fn is_set(&self) -> bool
        ensures { result ≡ is_set (plain_setup self.now) }
    {
        self.asked.is_some() && self.accepted.is_some()
    }

    /// Enhanced retransmission mode where both sides asked for it, and basic mode else.
    pub fn mode(&self) -> Mode
        ensures { result ≡ agreed_mode (plain_setup self.now) }
    {
        if is_enhanced(self.asked) && is_enhanced(self.accepted) {
            Mode::Enhanced
        } else {
            Mode::Basic
        }
    }

    fn wish(&mut self, options: &[u8])
        ensures { plain_setup self.new ≡ with_wish (plain_setup self.old) options.now }
    {
        let before = self.asked.unwrap_or(Mode::Basic);
        self.asked = Some(mode_in(options).unwrap_or(before));
    }

    fn answer(&mut self, part: &Part<'_>) -> Result<(), NoMemory>
        ensures { OnOk result (plain_setup self.new ≡ with_answer (plain_setup self.old) (plain_part part.now)) }
    {
        if !part.accepted {
            self.parts.clear();
            return Ok(());
        }
        self.parts.extend_from_slice(part.options)?;
        if !part.more {
            self.accepted = Some(mode_in(&self.parts).unwrap_or(Mode::Basic));
            self.parts.clear();
        }
        Ok(())
    }

    fn hear(&mut self, channel: &Channel, more: &Meaning<'_>) -> Result<(), NoMemory>
        ensures { OnOk result (plain_setup self.new ≡ setup_after (plain_setup self.old) (term channel.now (plain_meaning more.now))) }
    {
        if self.is_set() {
            return Ok(());
        }
        match more {
            Meaning::Wishes { peer, options, .. } if *peer == channel.peer => {
                self.wish(options);
            }
            Meaning::Answers(part) if part.own == channel.own && part.peer == channel.peer => {
                self.answer(part)?;
            }
            _ => {}
        }
        Ok(())
    }
}

/// The word on the end of a channel, where it names both its endpoints.
fn word_on(channel: &Channel, more: &Meaning<'_>) -> Option<Word>
    ensures { result ≡ word channel.now (plain_meaning more.now) }
{
    match *more {
        Meaning::Parts { word, own, peer } if own == channel.own && peer == channel.peer => {
            Some(word)
        }
        _ => None,
    }
}

/// The channel that a saying makes.
pub fn made_by(more: &Meaning<'_>) -> Option<Channel>
    ensures { result ≡ made_by (plain_meaning more.now) }
{
    match *more {
        Meaning::Makes(channel) => Some(channel),
        _ => None,
    }
}

impl Entry {
    /// A channel that has come to be.
    pub fn new(alloc: Global, channel: Channel) -> Entry
        ensures { plain_entry result ≡ fresh channel }
    {
        Entry {
            channel,
            life: Life::Alive,
            setup: Setup::new(alloc),
        }
    }

    /// Whether its host has not closed it.
    pub fn is_alive(&self) -> bool
        ensures { result ≡ is_alive self.now.life }
    {
        matches!(self.life, Life::Alive)
    }

    /// Whether it has not ended for its host.
    pub fn is_there(&self) -> bool
        ensures { result ≡ is_there self.now.life }
    {
        matches!(self.life, Life::Alive | Life::Leaving)
    }

    /// Whether another channel cannot come to be beside it, since one of its endpoints is taken.
    pub fn is_owner(&self, channel: &Channel) -> bool
        ensures { result ≡ is_owner channel.now (plain_entry self.now) }
    {
        self.channel.own == channel.own || self.channel.peer == channel.peer && self.is_there()
    }

    /// What becomes of it with one saying more. `NoMemory` is answered for want of memory alone.
    pub fn hear(&mut self, more: &Meaning<'_>) -> Result<(), NoMemory>
        ensures { OnOk result (plain_entry self.new ≡ entry_after (plain_meaning more.now) (plain_entry self.old)) }
    {
        let there = self.is_there();
        self.life = life_after(self.life, word_on(&self.channel, more));
        if !there {
            return Ok(());
        }
        let channel = self.channel;
        self.setup.hear(&channel, more)
    }
}
