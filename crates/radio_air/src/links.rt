//! Links that are asked for, made and ended.

ghost use Rattle.std.specs.Prelude.{◌≡◌, ◌<◌, ◌&&◌, true, OnOk, OnErr};
ghost use Rattle.push_terms.specs.declared.word.Side.{Side};
ghost use Rattle.radio_model.specs.Owed.{owes_many};
ghost use Rattle.radio_model.specs.Radio.{may_page, is_reached, is_requested, knows_link, joined, parted, parted_by, scanning, after_reaching, after_paging, after_accepting, after_disconnecting, is_quiet};

use crate::answer::Answer;
use crate::phase::Phase;
use crate::radio::Radio;
use bt_base::{Handle, NoMemory};
use push_terms::Side;

/// Connection Timeout (Core 5.1, Volume 1 Part F, 2.8).
const TIMEOUT: u8 = 0x08;

/// Remote User Terminated Connection (Core 5.1, Volume 1 Part F, 2.19).
const ENDED_BY_PEER: u8 = 0x13;

/// Connection Terminated By Local Host (Core 5.1, Volume 1 Part F, 2.22).
const ENDED_HERE: u8 = 0x16;

/// The bit of Scan Enable that lets a device be paged (Core 5.1, Volume 2 Part E, 7.3.18).
const PAGE_SCAN: u8 = 2;

impl Radio {
    /// Whether device a may page: nothing is left of an earlier link, and there is a handle.
    fn may_page(&self) -> bool
        ensures { result ≡ may_page self.now }
    {
        let number = self.number.get();
        self.phase.is_apart()
            && !self.a.is_up()
            && !self.b.is_up()
            && self.a.told().get() == number
            && self.b.told().get() == number
            && number < 0x0EFF
    }

    /// Whether device b hears that it is paged.
    fn is_reached(&self) -> bool
        ensures { result ≡ is_reached self.now }
    {
        self.phase.is_paging() && self.b.scan() >= PAGE_SCAN
    }

    /// The host of b is asked once device b hears that it is paged.
    pub(crate) fn reach(&mut self) -> Result<(), NoMemory>
        ensures ok { OnOk result (self.new ≡ after_reaching self.old) }
        ensures full { OnErr result (owes_many 16 self.old ≡ true) }
    {
        if self.is_reached() {
            self.b.owe(Answer::Called)?;
            self.phase = Phase::Requested;
        }
        Ok(())
    }

    /// Device a pages device b. Device b pages nobody.
    pub(crate) fn page(&mut self, side: Side) -> Result<(), NoMemory>
        ensures ok { OnOk result (self.new ≡ after_paging side self.old) }
        ensures full { OnErr result (owes_many 16 self.old ≡ true) }
    {
        match side {
            Side::A => self.page_b(),
            Side::B => Ok(()),
        }
    }

    fn page_b(&mut self) -> Result<(), NoMemory>
        ensures ok { OnOk result (self.new ≡ after_paging Side.A self.old) }
        ensures full { OnErr result (owes_many 16 self.old ≡ true) }
    {
        if self.may_page() {
            self.phase = Phase::Paging;
            self.reach()?;
        }
        Ok(())
    }

    /// The host of b takes the link that it was asked for: both hosts are told of a new link.
    pub(crate) fn accept(&mut self, side: Side) -> Result<(), NoMemory>
        ensures ok { OnOk result (self.new ≡ after_accepting side self.old) }
        ensures full { OnErr result (owes_many 16 self.old ≡ true) }
    {
        match side {
            Side::A => Ok(()),
            Side::B => self.make_link(),
        }
    }

    fn make_link(&mut self) -> Result<(), NoMemory>
        ensures ok { OnOk result (self.new ≡ after_accepting Side.B self.old) }
        ensures full { OnErr result (owes_many 16 self.old ≡ true) }
    {
        if self.phase.is_requested() {
            let handle = Handle::of(self.number.get() + 1).unwrap();
            self.a.owe(Answer::LinkMade(handle))?;
            self.b.owe(Answer::LinkMade(handle))?;
            self.phase = Phase::Together;
            self.number = handle;
        }
        Ok(())
    }

    /// The link ends, for each host with its reason. All frames leave the air.
    fn part(&mut self, for_a: u8, for_b: u8) -> Result<(), NoMemory>
        ensures ok { OnOk result (self.new ≡ parted for_a for_b self.old) }
        ensures full { OnErr result (owes_many 16 self.old ≡ true) }
    {
        let handle = self.number;
        let reason = for_a;
        self.a.owe(Answer::LinkGone { handle, reason })?;
        let reason = for_b;
        self.b.owe(Answer::LinkGone { handle, reason })?;
        self.phase = Phase::Apart;
        self.ab.clear();
        self.ba.clear();
        Ok(())
    }

    /// Whether the host of a side knows of the link in the air, and that it is up.
    pub(crate) fn knows_link(&self, side: Side) -> bool
        ensures { result ≡ knows_link side self.now }
    {
        let knowing = match side {
            Side::A => &self.a,
            Side::B => &self.b,
        };
        self.phase.is_together() && knowing.is_up() && knowing.told().get() == self.number.get()
    }

    /// The host of a side ends the link.
    pub(crate) fn disconnect(&mut self, side: Side, handle: Handle) -> Result<(), NoMemory>
        ensures ok { OnOk result (self.new ≡ after_disconnecting side handle self.old) }
        ensures full { OnErr result (owes_many 16 self.old ≡ true) }
    {
        if !self.knows_link(side) || handle.get() != self.number.get() {
            return Ok(());
        }
        match side {
            Side::A => self.part(ENDED_HERE, ENDED_BY_PEER),
            Side::B => self.part(ENDED_BY_PEER, ENDED_HERE),
        }
    }

    /// The link breaks: it ends with reason 08 for both hosts. It takes no memory.
    ///
    /// It needs that nothing is on its way to either host.
    pub(crate) fn break_link(&mut self)
        requires { is_quiet self.old ≡ true }
        ensures { self.new ≡ parted 0x08 0x08 self.old }
    {
        if self.part(TIMEOUT, TIMEOUT).is_err() {
            unreachable!()
        }
    }

    /// The host of a side writes Scan Enable.
    pub(crate) fn scan(&mut self, side: Side, value: u8)
        ensures { self.new ≡ scanning side value self.old }
    {
        match side {
            Side::A => self.a.set_scan(value),
            Side::B => self.b.set_scan(value),
        }
    }
}
