//! What a server hears packets with.

ghost use Rattle.std.specs.Prelude.{◌≡◌, ◌++◌, false, length, is_err};
ghost use Rattle.obex_session.specs.Counting.{counts_of};
ghost use Rattle.push_model.specs.Sessions.{is_pending};
ghost use Rattle.push_model.specs.Listening.{stops, hears_stream};
ghost use Rattle.push_profile.specs.Reactions.{Comes};
ghost use Rattle.push_profile.specs.Hearing.{Suits, ended};

use crate::listener::Listener;
use crate::stream::hear_stream;
use bt_base::{Inbox, NoMemory};
use obex_headers::Assembler;

/// What hears the packets, and what finds them in the stream over RFCOMM.
#[derive(Drop)]
pub(crate) struct Reception {
    pub(crate) listener: Listener,
    pub(crate) assembler: Assembler,
}

impl Reception {
    /// Hears octets of the stream over RFCOMM.
    pub(crate) fn hear<B: Inbox>(&mut self, octets: &[u8], inbox: &mut B) -> Result<(), NoMemory>
        requires pending { B.is_pending inbox.old ≡ is_pending self.old.listener.service.sessions }
        requires works { stops self.old.listener ≡ false }
        requires suits { Suits self.old.assembler self.old.listener }
        ensures comes { Comes (hears_stream (length (self.old.assembler.held ++ octets.now)) (self.old.assembler.held ++ octets.now) self.old.listener) (ended self.new.listener self.new.assembler.held) (B.content inbox.old) (B.content inbox.new) (counts_of B.faults B.shortages inbox.old) (counts_of B.faults B.shortages inbox.new) (is_err result) }
        ensures fails { is_err result ≡ self.new.listener.service.failed }
        ensures suits { Suits self.new.assembler self.new.listener }
        ensures pending { B.is_pending inbox.new ≡ is_pending self.new.listener.service.sessions }
    {
        hear_stream(&mut self.assembler, &mut self.listener, octets, inbox)
    }
}
