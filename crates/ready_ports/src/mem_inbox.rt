//! An inbox over memory.

ghost use Rattle.std.specs.Prelude.{◌≡◌, ◌↔◌, true, false, [], Some, None, slice_get, length, is_some, is_ok, IfOk, IsErrOf, IsTrue};
ghost use Rattle.std.specs.Option.{option_map};
ghost use Rattle.std.proofs.Common.{refl};
ghost use Rattle.bt_base.specs.Counts.{HasCause};
ghost use Rattle.bt_base.specs.Objects.{Object, Contents, begun, appended, committed, aborted, stepped};
ghost use Rattle.ready_ports.specs.Memory.{MemoryStored, no_calls, is_next_failing};
ghost use Rattle.bt_base.specs.declared.ports.PortFault.TheVariants.{Failed};

use crate::calls::CallPlan;
use bt_base::{Inbox, NoMemory, PortFault};
use std::alloc::Global;
use std::marker::Model;

/// An object that lies in an inbox in memory.
#[derive(Drop)]
struct StoredObject {
    name: Vec<u16>,
    octets: Vec<u8>,
}

impl Model for StoredObject {
    ghost Value = { Object };

    ghost view = { λ object. record { name = object.name.items; octets = object.octets.items } };
}

impl StoredObject {
    fn name(&self) -> &[u16]
        ensures { result.now ≡ self.now.name }
    {
        &self.name
    }

    fn octets(&self) -> &[u8]
        ensures { result.now ≡ self.now.octets }
    {
        &self.octets
    }
}

/// An inbox that keeps its objects in memory, and tells its content.
#[derive(Drop)]
pub struct MemInbox {
    alloc: Global,
    stored: Vec<StoredObject>,
    pending: Option<StoredObject>,
    calls: CallPlan,
}

impl Model for MemInbox {
    ghost Value = { MemoryStored };

    ghost view = { λ inbox. record { contents = record { stored = inbox.stored.items; pending = inbox.pending }; calls = inbox.calls } };
}

impl MemInbox {
    /// An empty inbox. The calls whose numbers, from 1, are in `failing` answer `Failed`.
    pub fn new(alloc: Global, failing: &[u32]) -> Result<MemInbox, NoMemory>
        ensures { IfOk result (λ inbox. inbox ≡ record { contents = record { stored = []; pending = None }; calls = no_calls failing.now }) }
    {
        Ok(MemInbox {
            alloc,
            stored: Vec::new(alloc),
            pending: None,
            calls: CallPlan::new(alloc, failing)?,
        })
    }

    /// How many objects are stored.
    pub fn len(&self) -> usize
        ensures { result ≡ length self.now.contents.stored }
    {
        self.stored.len()
    }

    /// Whether no object is stored.
    pub fn is_empty(&self) -> bool
        ensures { IsTrue result ↔ (self.now.contents.stored ≡ []) }
    {
        self.stored.is_empty()
    }

    /// The name of the stored object of that place, in UTF-16 units.
    pub fn name_at(&self, i: usize) -> Option<&[u16]>
        ensures { option_map (λ name. name.now) result ≡ option_map (λ object. object.name) (slice_get self.now.contents.stored i) }
    {
        match self.stored.get(i) {
            Some(object) => Some(object.name()),
            None => None,
        }
    }

    /// The octets of the stored object of that place.
    pub fn octets_at(&self, i: usize) -> Option<&[u8]>
        ensures { option_map (λ octets. octets.now) result ≡ option_map (λ object. object.octets) (slice_get self.now.contents.stored i) }
    {
        match self.stored.get(i) {
            Some(object) => Some(object.octets()),
            None => None,
        }
    }
}

impl Inbox for MemInbox {
    ghost content = { λ inbox. Some inbox.contents };

    ghost is_pending = { λ inbox. is_some inbox.contents.pending };

    ghost faults = { λ inbox. inbox.calls.faults };

    ghost shortages = { λ inbox. inbox.calls.shortages };

    ghost told = { λ inbox. refl };

    fn begin(&mut self, name: &[u16]) -> Result<(), PortFault>
        requires { is_some self.old.contents.pending ≡ false }
        ensures content { Some self.new.contents ≡ stepped result (begun name.now) (Some self.old.contents) }
        ensures pending { is_some self.new.contents.pending ≡ is_ok result }
        ensures cause { HasCause self.old.calls.faults self.new.calls.faults self.old.calls.shortages self.new.calls.shortages result }
        ensures exactly { IsErrOf result Failed ↔ IsTrue (is_next_failing self.old.calls) }
    {
        self.pending = None;
        self.calls.call()?;
        let Ok(name) = Vec::from_slice(self.alloc, name) else {
            return Err(self.calls.fall_short());
        };
        let octets = Vec::new(self.alloc);
        self.pending = Some(StoredObject { name, octets });
        Ok(())
    }

    fn append(&mut self, piece: &[u8]) -> Result<(), PortFault>
        requires { is_some self.old.contents.pending ≡ true }
        ensures content { Some self.new.contents ≡ stepped result (appended piece.now) (Some self.old.contents) }
        ensures pending { is_some self.new.contents.pending ≡ is_ok result }
        ensures cause { HasCause self.old.calls.faults self.new.calls.faults self.old.calls.shortages self.new.calls.shortages result }
        ensures exactly { IsErrOf result Failed ↔ IsTrue (is_next_failing self.old.calls) }
    {
        let mut object = self.pending.take().unwrap();
        self.calls.call()?;
        if object.octets.extend_from_slice(piece).is_err() {
            return Err(self.calls.fall_short());
        }
        self.pending = Some(object);
        Ok(())
    }

    fn commit(&mut self) -> Result<(), PortFault>
        requires { is_some self.old.contents.pending ≡ true }
        ensures content { Some self.new.contents ≡ stepped result committed (Some self.old.contents) }
        ensures pending { is_some self.new.contents.pending ≡ false }
        ensures cause { HasCause self.old.calls.faults self.new.calls.faults self.old.calls.shortages self.new.calls.shortages result }
        ensures exactly { IsErrOf result Failed ↔ IsTrue (is_next_failing self.old.calls) }
    {
        let object = self.pending.take().unwrap();
        self.calls.call()?;
        if self.stored.push(object).is_err() {
            return Err(self.calls.fall_short());
        }
        Ok(())
    }

    fn abort(&mut self) -> Result<(), PortFault>
        ensures content { Some self.new.contents ≡ Some (aborted self.old.contents) }
        ensures pending { is_some self.new.contents.pending ≡ false }
        ensures cause { HasCause self.old.calls.faults self.new.calls.faults self.old.calls.shortages self.new.calls.shortages result }
        ensures exactly { IsErrOf result Failed ↔ IsTrue (is_next_failing self.old.calls) }
    {
        self.pending = None;
        self.calls.call()
    }
}
