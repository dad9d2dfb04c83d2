//! What the user of a client wants of it.

ghost use Rattle.std.specs.Prelude.{◌≡◌, ◌≤◌, [], None, Some, false, length, OnOk, OnErr};
ghost use Rattle.l2cap_channels.specs.Machine.{with_channels};
ghost use Rattle.shelf_model.specs.obex_session.specs.PutPackets.{units_in};
ghost use Rattle.shelf_model.specs.world_model.specs.Machines.{Cancelled, Opening};
ghost use Rattle.bt_base.specs.declared.settings.Settings.{Settings};
ghost use Rattle.shelf_model.specs.host_model.specs.Clients.{told};
ghost use Rattle.shelf_model.specs.host_model.specs.Hosts.{hear};
ghost use Rattle.bt_host.specs.Calls.{Does};
ghost use Rattle.bt_host.specs.Uppers.{asking, IsOf};
ghost use Rattle.bt_host.specs.Stacks.{HearsNews, IsResting};
ghost use Rattle.bt_host.specs.Pushing.{Pushes, Lacks};
ghost use Rattle.bt_host.specs.NotedHosts.{noted_client, client_noting};
ghost use Rattle.bt_host.specs.PushingLaws.{Answers};
ghost use Rattle.bt_host.specs.declared.feed_refusal.FeedRefusal.TheVariants as refusals;
ghost use Rattle.bt_host.specs.Shells.{settings_of, moment_of, ComesToRest, RefusedNone, StaysFailed};

use crate::client_end::ClientEnd;
use crate::noting::Noting;
use crate::shell::{Shell, noted};
use crate::stack::Stack;
use crate::upper::{MOST_SAID, Upper};
use bt_base::{NoMemory, Shelf};

impl Noting<ClientEnd> {
    /// Begins the push of the object of that name. It needs a name of at most 100 UTF-16 units.
    fn begin<F: Shelf>(&mut self, name: &str, shelf: &mut F) -> Result<(), NoMemory>
        requires few { length (units_in name.now) ≤ 100 }
        requires sound { Pushes self.old.end }
        ensures does { OnOk result ((settings : Settings) → Does (Answers F.content F.faults F.shortages) (λ rest. (noted_client settings).told rest (Opening name.now) (client_noting F.content self.old shelf.old rest)) (client_noting F.content self.new shelf.new) shelf.old shelf.new) }
        ensures sound { OnOk result (Pushes self.new.end) }
        ensures lacked { OnErr result (Lacks F.shortages shelf.old shelf.new) }
    {
        self.end.begin(name, shelf)
    }

    /// Gives up its push, where that may be.
    fn cancel(&mut self)
        requires sound { Pushes self.old.end }
        ensures is { self.new ≡ record self.old { end = told [] Cancelled self.old.end } }
        ensures sound { Pushes self.new.end }
    {
        self.end.cancel();
    }
}

impl Upper<Noting<ClientEnd>> {
    /// Begins the push of the object of that name, and goes on. It needs a name of at most 100 UTF-16 units.
    fn begin<F: Shelf>(&mut self, name: &str, shelf: &mut F) -> Result<(), NoMemory>
        requires few { length (units_in name.now) ≤ 100 }
        requires sound { Pushes self.old.end.end }
        requires of { IsOf false self.old }
        ensures does { OnOk result (Does (Answers F.content F.faults F.shortages) (λ rest. hear (noted_client self.old.machine.settings) rest (Opening name.now) (asking (client_noting F.content) shelf.old self.old rest)) (asking (client_noting F.content) shelf.new self.new) shelf.old shelf.new) }
        ensures machine { self.new.machine ≡ with_channels self.old.machine self.new.machine.channels }
        ensures told { OnOk result (self.new.machine.channels.events ≡ []) }
        ensures sound { OnOk result (Pushes self.new.end.end) }
        ensures lacked { OnErr result (Lacks F.shortages shelf.old shelf.new) }
    {
        self.may_say = MOST_SAID;
        self.end.begin(name, shelf)?;
        self.drive(shelf)?;
        Ok(())
    }

    /// Gives up its push, where that may be, and goes on.
    fn cancel<F: Shelf>(&mut self, shelf: &mut F) -> Result<(), NoMemory>
        requires sound { Pushes self.old.end.end }
        requires of { IsOf false self.old }
        ensures does { OnOk result (Does (Answers F.content F.faults F.shortages) (λ rest. hear (noted_client self.old.machine.settings) rest Cancelled (asking (client_noting F.content) shelf.old self.old rest)) (asking (client_noting F.content) shelf.new self.new) shelf.old shelf.new) }
        ensures machine { self.new.machine ≡ with_channels self.old.machine self.new.machine.channels }
        ensures told { OnOk result (self.new.machine.channels.events ≡ []) }
        ensures sound { OnOk result (Pushes self.new.end.end) }
        ensures lacked { OnErr result (Lacks F.shortages shelf.old shelf.new) }
    {
        self.may_say = MOST_SAID;
        self.end.cancel();
        self.drive(shelf)?;
        Ok(())
    }
}

impl Stack<Noting<ClientEnd>> {
    /// Begins the push of the object of that name, and puts out what may be put out. It needs a name of at most 100 UTF-16 units.
    pub(crate) fn begin<F: Shelf>(&mut self, name: &str, shelf: &mut F) -> Result<(), NoMemory>
        requires few { length (units_in name.now) ≤ 100 }
        requires sound { Pushes self.old.upper.end.end }
        requires of { IsOf false self.old.upper }
        ensures hears { OnOk result (HearsNews (noted_client self.old.upper.machine.settings) (Answers F.content F.faults F.shortages) (client_noting F.content) (Opening name.now) (record { stack = self.old; port = shelf.old }) (record { stack = self.new; port = shelf.new })) }
        ensures machine { self.new.upper.machine ≡ with_channels self.old.upper.machine self.new.upper.machine.channels }
        ensures paged { self.new.paged ≡ self.old.paged }
        ensures rests { OnOk result (IsResting (noted_client self.old.upper.machine.settings) (client_noting F.content) (record { stack = self.new; port = shelf.new })) }
        ensures of { OnOk result (IsOf false self.new.upper) }
        ensures sound { OnOk result (Pushes self.new.upper.end.end) }
        ensures lacked { OnErr result (Lacks F.shortages shelf.old shelf.new) }
    {
        self.upper.begin(name, shelf)?;
        self.put_out(shelf)?;
        Ok(())
    }

    /// Gives up its push, where that may be, and puts out what may be put out.
    pub(crate) fn cancel<F: Shelf>(&mut self, shelf: &mut F) -> Result<(), NoMemory>
        requires sound { Pushes self.old.upper.end.end }
        requires of { IsOf false self.old.upper }
        ensures hears { OnOk result (HearsNews (noted_client self.old.upper.machine.settings) (Answers F.content F.faults F.shortages) (client_noting F.content) Cancelled (record { stack = self.old; port = shelf.old }) (record { stack = self.new; port = shelf.new })) }
        ensures machine { self.new.upper.machine ≡ with_channels self.old.upper.machine self.new.upper.machine.channels }
        ensures paged { self.new.paged ≡ self.old.paged }
        ensures rests { OnOk result (IsResting (noted_client self.old.upper.machine.settings) (client_noting F.content) (record { stack = self.new; port = shelf.new })) }
        ensures of { OnOk result (IsOf false self.new.upper) }
        ensures sound { OnOk result (Pushes self.new.upper.end.end) }
        ensures lacked { OnErr result (Lacks F.shortages shelf.old shelf.new) }
    {
        self.upper.cancel(shelf)?;
        self.put_out(shelf)?;
        Ok(())
    }
}

impl Shell<Noting<ClientEnd>> {
    /// Begins the push of the object of that name, and goes on. It needs a host that refused nothing else, and a name of at most
    /// 100 UTF-16 units.
    pub(crate) fn begin<F: Shelf>(&mut self, name: &str, shelf: &mut F) -> Result<(), NoMemory>
        requires none { RefusedNone self.old }
        requires few { length (units_in name.now) ≤ 100 }
        requires sound { self.old.refusal ≡ None → Pushes self.old.stack.upper.end.end }
        requires of { self.old.refusal ≡ None → IsOf false self.old.stack.upper }
        ensures hears { OnOk result (HearsNews (noted_client (settings_of self.old)) (Answers F.content F.faults F.shortages) (client_noting F.content) (Opening name.now) (moment_of self.old shelf.old) (moment_of self.new shelf.new)) }
        ensures rests { OnOk result (ComesToRest noted_client (client_noting F.content) self.old self.new shelf.new) }
        ensures stays { OnOk result (self.new ≡ record self.old { stack = self.new.stack }) }
        ensures of { self.new.refusal ≡ None → IsOf false self.new.stack.upper }
        ensures sound { OnOk result (Pushes self.new.stack.upper.end.end) }
        ensures lacked { self.old.refusal ≡ None → OnErr result (Lacks F.shortages shelf.old shelf.new) }
        ensures refused { OnErr result (self.new.refusal ≡ Some refusals.NoMemory) }
        ensures failed { StaysFailed self.old self.new shelf.old shelf.new result }
    {
        if self.refusal.is_some() {
            return Err(NoMemory);
        }
        noted(self.stack.begin(name, shelf), &mut self.refusal)
    }

    /// Gives up its push, where that may be, and goes on. It needs a host that refused nothing else.
    pub(crate) fn cancel<F: Shelf>(&mut self, shelf: &mut F) -> Result<(), NoMemory>
        requires none { RefusedNone self.old }
        requires sound { self.old.refusal ≡ None → Pushes self.old.stack.upper.end.end }
        requires of { self.old.refusal ≡ None → IsOf false self.old.stack.upper }
        ensures hears { OnOk result (HearsNews (noted_client (settings_of self.old)) (Answers F.content F.faults F.shortages) (client_noting F.content) Cancelled (moment_of self.old shelf.old) (moment_of self.new shelf.new)) }
        ensures rests { OnOk result (ComesToRest noted_client (client_noting F.content) self.old self.new shelf.new) }
        ensures stays { OnOk result (self.new ≡ record self.old { stack = self.new.stack }) }
        ensures of { self.new.refusal ≡ None → IsOf false self.new.stack.upper }
        ensures sound { OnOk result (Pushes self.new.stack.upper.end.end) }
        ensures lacked { self.old.refusal ≡ None → OnErr result (Lacks F.shortages shelf.old shelf.new) }
        ensures refused { OnErr result (self.new.refusal ≡ Some refusals.NoMemory) }
        ensures failed { StaysFailed self.old self.new shelf.old shelf.new result }
    {
        if self.refusal.is_some() {
            return Err(NoMemory);
        }
        noted(self.stack.cancel(shelf), &mut self.refusal)
    }
}
