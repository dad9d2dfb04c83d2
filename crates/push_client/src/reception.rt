//! What a client hears responses with.

ghost use Rattle.std.specs.Prelude.{◌≡◌, ◌++◌, [], length};
ghost use Rattle.push_model.specs.Client.{Client};
ghost use Rattle.push_model.specs.Responding.{hears_stream};
ghost use Rattle.push_client.specs.Talking.{placed, begun, Suits};

use crate::course::Course;
use crate::dialog::Dialog;
use crate::stream::hear_stream;
use obex_headers::Assembler;
use push_model::{Contact, Point, Stage};

/// What hears the responses, and what finds them in the stream over RFCOMM.
#[derive(Drop)]
pub(crate) struct Reception {
    pub(crate) dialog: Dialog,
    pub(crate) assembler: Assembler,
}

impl Reception {
    /// A push begins: no link was asked for, and nothing was said.
    pub(crate) fn begin(&mut self)
        requires suits { Suits self.old.assembler self.old.dialog }
        ensures dialog { self.new.dialog ≡ begun self.old.dialog }
        ensures held { self.new.assembler.held ≡ [] }
        ensures suits { Suits self.new.assembler self.new.dialog }
    {
        self.dialog.course = Course {
            stage: Stage::Link(Point::Due),
            cause: None,
        };
        self.dialog.contact = Contact::Unmet;
        self.dialog.session.reset();
        self.dialog.going = false;
        self.assembler.reset();
    }

    /// Hears octets of the stream over RFCOMM.
    pub(crate) fn hear(&mut self, octets: &[u8])
        requires suits { Suits self.old.assembler self.old.dialog }
        ensures hears { (client : Client) → hears_stream (length (self.old.assembler.held ++ octets.now)) (self.old.assembler.held ++ octets.now) (placed self.old.dialog self.old.assembler.held client) ≡ placed self.new.dialog self.new.assembler.held client }
        ensures suits { Suits self.new.assembler self.new.dialog }
    {
        hear_stream(&mut self.assembler, &mut self.dialog, octets)
    }
}
