//! A push begins.

ghost use Rattle.std.specs.Prelude.{◌≡◌, ◌≤◌, false, length, is_err, IsTrue};
ghost use Rattle.bt_base.specs.Counts.{HasRisen};
ghost use Rattle.obex_session.specs.PutPackets.{units_in};
ghost use Rattle.push_model.specs.Client.{with_object};
ghost use Rattle.push_client.specs.Pushing.{Begins, fails_now};

use super::PushClient;
use bt_base::{NoMemory, PortFault, Shelf};
use push_model::Stage;
use push_terms::Outcome;

impl PushClient {
    /// `begin` where no call failed before.
    pub(super) fn begin_anew<F: Shelf>(&mut self, name: &str, shelf: &mut F) -> Result<(), NoMemory>
        requires few { length (units_in name.now) ≤ 100 }
        requires works { self.old.failed ≡ false }
        ensures begins { Begins self.old self.new name.now (F.content shelf.old) (F.faults shelf.old) (F.faults shelf.new) (F.shortages shelf.old) (F.shortages shelf.new) }
        ensures fails { is_err result ≡ self.new.failed }
        ensures short { IsTrue (fails_now self.old self.new) → HasRisen (F.shortages shelf.old) (F.shortages shelf.new) }
        ensures content { F.content shelf.new ≡ F.content shelf.old }
    {
        match shelf.size(name) {
            Ok(size) => self.set_object(name, size),
            Err(PortFault::Failed) => {
                self.set_object(name, 0);
                self.reception.dialog.course.stage = Stage::Over;
                self.reception.dialog.course.cause = Some(Outcome::ShelfFault);
            }
            Err(PortFault::NoMemory) => {
                self.failed = true;
                return Err(NoMemory);
            }
        }
        Ok(())
    }

    /// The push of that object begins.
    fn set_object(&mut self, name: &str, size: u32)
        requires { length (units_in name.now) ≤ 100 }
        ensures { self.new ≡ with_object name.now size self.old }
    {
        self.name.set(name);
        self.size = size;
        self.query.reset();
        self.left = self.tries;
        self.reception.begin();
        self.outgoing.clear();
        self.frame.clear();
        self.given = false;
    }
}
