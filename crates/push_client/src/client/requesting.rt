//! The requests of a client.

ghost use Rattle.std.specs.Prelude.{◌≡◌, [], None, false, is_err};
ghost use Rattle.obex_session.specs.NextPut.{is_waiting};
ghost use Rattle.obex_session.specs.PutPackets.{Reaches};
ghost use Rattle.push_model.specs.Steps.{requests, puts, failing, next_ask, Connect, Put, Abort, Disconnect};
ghost use Rattle.push_model.specs.declared.course.Stage.TheVariants.{Object};
ghost use Rattle.push_client.specs.Putting.{Comes};
ghost use Rattle.push_client.specs.Requesting.{ask_of, asked, made_by, is_shortage, Stays};

use super::PushClient;
use crate::asking::Ask;
use crate::outgoing::are_octets;
use bt_base::{NoMemory, PortFault, Shelf};
use push_model::Contact;
use push_terms::Outcome;

impl PushClient {
    /// The request waits to be sent. `NoMemory` where the shelf had none for a part of the object.
    ///
    /// It needs the request that is due, and that none waits for its response.
    pub(super) fn request<F: Shelf>(&mut self, ask: Ask, shelf: &mut F) -> Result<(), NoMemory>
        requires asks { ask_of ask ≡ next_ask self.old }
        requires free { is_waiting self.old.session.awaited ≡ false }
        requires none { self.old.rest ≡ [] }
        requires stage { self.old.stage ≡ Object }
        ensures stays { Stays self.old self.new }
        ensures comes { Comes (requests (ask_of ask) self.old) (asked self.new result) self.old (F.content shelf.old) (F.faults shelf.old) (F.faults shelf.new) (F.shortages shelf.old) (F.shortages shelf.new) (is_err result) }
        ensures content { F.content shelf.new ≡ F.content shelf.old }
        ensures absence { Reaches self.old.size self.old.name (F.content shelf.old) → F.absences shelf.new ≡ F.absences shelf.old }
    {
        match ask {
            Ask::Put => return self.put(shelf),
            Ask::Connect => self.connect(),
            Ask::Abort => self.abort(),
            Ask::Disconnect | Ask::Close | Ask::Nothing => self.disconnect(),
        }
        Ok(())
    }

    /// CONNECT.
    fn connect(&mut self)
        ensures client { self.new ≡ (requests Connect self.old []).client }
        ensures stays { Stays self.old self.new }
    {
        self.outgoing.connect(&mut self.reception.dialog.session);
        self.reception.dialog.contact = Contact::Unmet;
        self.reception.dialog.going = true;
    }

    /// ABORT.
    fn abort(&mut self)
        ensures client { self.new ≡ (requests Abort self.old []).client }
        ensures stays { Stays self.old self.new }
    {
        self.outgoing.abort(&mut self.reception.dialog.session);
        self.reception.dialog.going = true;
    }

    /// DISCONNECT.
    fn disconnect(&mut self)
        ensures client { self.new ≡ (requests Disconnect self.old []).client }
        ensures stays { Stays self.old self.new }
    {
        self.outgoing.disconnect(&mut self.reception.dialog.session);
        self.reception.dialog.contact = Contact::Left;
        self.reception.dialog.going = true;
    }

    /// The next PUT. Where the shelf fails, that is the first cause: what was put is aborted, or the client takes leave.
    fn put<F: Shelf>(&mut self, shelf: &mut F) -> Result<(), NoMemory>
        requires free { is_waiting self.old.session.awaited ≡ false }
        requires none { self.old.rest ≡ [] }
        requires cause { self.old.cause ≡ None }
        requires stage { self.old.stage ≡ Object }
        ensures stays { Stays self.old self.new }
        ensures comes { Comes (requests Put self.old) (asked self.new result) self.old (F.content shelf.old) (F.faults shelf.old) (F.faults shelf.new) (F.shortages shelf.old) (F.shortages shelf.new) (is_err result) }
        ensures content { F.content shelf.new ≡ F.content shelf.old }
        ensures absence { Reaches self.old.size self.old.name (F.content shelf.old) → F.absences shelf.new ≡ F.absences shelf.old }
    {
        match self.put_part(shelf) {
            Ok(()) => Ok(()),
            Err(PortFault::Failed) => {
                self.leave();
                Ok(())
            }
            Err(PortFault::NoMemory) => Err(NoMemory),
        }
    }

    /// The next PUT, where the shelf gives its part of the object.
    fn put_part<F: Shelf>(&mut self, shelf: &mut F) -> Result<(), PortFault>
        requires free { is_waiting self.old.session.awaited ≡ false }
        requires none { self.old.rest ≡ [] }
        ensures stays { Stays self.old self.new }
        ensures cause { self.new.cause ≡ self.old.cause }
        ensures comes { Comes (puts self.old) (made_by self.new result) self.old (F.content shelf.old) (F.faults shelf.old) (F.faults shelf.new) (F.shortages shelf.old) (F.shortages shelf.new) (is_shortage result) }
        ensures content { F.content shelf.new ≡ F.content shelf.old }
        ensures absence { Reaches self.old.size self.old.name (F.content shelf.old) → F.absences shelf.new ≡ F.absences shelf.old }
    {
        let dialog = &mut self.reception.dialog;
        let name = self.name.text();
        let outgoing = &mut self.outgoing;
        if let Err(fault) = outgoing.put(&mut dialog.session, name, self.size, shelf, self.limit) {
            return Err(fault);
        }
        are_octets(outgoing.octets());
        dialog.going = true;
        Ok(())
    }

    /// The shelf failed: the client aborts what it put, or takes leave.
    fn leave(&mut self)
        requires cause { self.old.cause ≡ None }
        requires stage { self.old.stage ≡ Object }
        ensures stays { Stays self.old self.new }
        ensures client { self.new ≡ (failing self.old []).client }
    {
        self.reception.dialog.course.end(Outcome::ShelfFault);
        match self.reception.dialog.next_ask() {
            Ask::Abort => self.abort(),
            Ask::Connect | Ask::Put | Ask::Disconnect | Ask::Close | Ask::Nothing => {
                self.disconnect();
            }
        }
    }
}
