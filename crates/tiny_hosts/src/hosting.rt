//! A tiny host as the world sees it.

ghost use Rattle.std.specs.Prelude.{◌≡◌};
ghost use Rattle.tiny_hosts.specs.Minds.{Unasked};
ghost use Rattle.tiny_hosts.specs.Hosting.{asking, IsReady, Unaltered};

use crate::mind::Mind;
use crate::tiny_host::{TinyHost, go_on, hear};
use crate::told::Told;
use bt_base::{NoMemory, Settings};
use h4_framing::{Leading, first};
use host_link::HostLink;
use push_terms::Outcome;
use radio_world::{Client, Host, Keeps, Measured};
use std::alloc::Global;

/// How many octets the longest packet has.
const LONGEST_PACKET: usize = 1_026;

/// The longest ACL packet that a host takes, in octets.
const ACL_LIMIT: u16 = 1_021;

impl<P, M: Mind> Host<P> for TinyHost<M> {
    ghost use Rattle.tiny_hosts.specs.HostLaws.{begins, joins, speaks, stops, fresh_host};

    ghost State = { M };

    ghost Answer = { Unasked };

    ghost most_more = { 1 };

    ghost machine = { M.machine };

    ghost side = { M.side };

    ghost station = { λ host port. asking host.mind host.line };

    ghost held = { λ host. host.held };

    ghost is_sound = { λ host port. IsReady M.machine M.side host.mind host.line };

    ghost answers = { Unaltered };

    ghost fresh = { λ settings. fresh_host M.machine M.side };

    fn new(alloc: Global, _settings: &Settings) -> Result<TinyHost<M>, NoMemory> {
        Ok(TinyHost {
            mind: M::new(),
            line: HostLink::new(alloc, M::role())?,
            held: Vec::with_capacity(alloc, LONGEST_PACKET)?,
        })
    }

    fn out(&self) -> &[u8] {
        self.line.out()
    }

    fn taken(&mut self, n: usize, _port: &mut P) -> Result<(), NoMemory> {
        self.line.taken(n);
        go_on(&mut self.mind, &mut self.line);
        Ok(())
    }

    fn feed(&mut self, octets: &[u8], _port: &mut P) -> Result<(), NoMemory> {
        self.held.extend_from_slice(octets)?;
        let Leading::Whole(unit, _) = first(&self.held, ACL_LIMIT) else {
            return Ok(());
        };
        hear(&mut self.mind, &mut self.line, unit);
        self.held.clear();
        Ok(())
    }

    fn armed(&self) -> bool {
        self.mind.armed()
    }

    fn on_timer(&mut self, _port: &mut P) -> Result<(), NoMemory> {
        self.mind.hear(Told::TimerFired);
        go_on(&mut self.mind, &mut self.line);
        Ok(())
    }

    fn has_fcs(&self, channel: u16) -> bool {
        self.mind.has_fcs(channel)
    }

    ghost begins = { λ settings port unused. begins M.machine M.side M.octets M.begins_idle };

    ghost joins = { joins };

    ghost lacks = { λ first mid last used answered lacked. tt };

    ghost speaks = { speaks M.machine M.one_more };

    ghost stops = { λ host port. stops M.machine M.side host.mind host.line };
}

impl<P, M: Mind> Client<P> for TinyHost<M> {
    fn idle(&self) -> bool {
        self.mind.idle()
    }

    fn outcome(&self) -> Option<Outcome> {
        self.mind.outcome()
    }

    fn may_cancel(&self) -> bool {
        self.mind.may_cancel()
    }

    fn push(&mut self, name: &str, _port: &mut P) -> Result<(), NoMemory> {
        self.mind.hear(Told::Opening(name));
        go_on(&mut self.mind, &mut self.line);
        Ok(())
    }

    fn cancel(&mut self, _port: &mut P) -> Result<(), NoMemory> {
        self.mind.hear(Told::Cancelled);
        go_on(&mut self.mind, &mut self.line);
        Ok(())
    }
}

/// It holds no window, and notes in place of credits how many PDUs it heard.
impl<P, M: Mind> Measured<P> for TinyHost<M> {
    ghost use Rattle.tiny_hosts.specs.HostLaws.{none_is_noted, count_is_noted};

    ghost frames_sent = { λ host. 0 };

    ghost credits_held = { λ host. M.count host.mind };

    fn greatest_window(&self) -> u8 {
        0
    }

    fn greatest_credits(&self) -> u16 {
        self.mind.heard()
    }

    ghost frames_noted = { none_is_noted M.machine };

    ghost credits_noted = { count_is_noted M.machine M.count M.counted };
}

/// It keeps as many objects as it heard PDUs.
impl<M: Mind> Keeps for TinyHost<M> {
    ghost stored = { λ host. M.count host.mind };

    fn kept(&self) -> u32 {
        u32::from(self.mind.heard())
    }
}
