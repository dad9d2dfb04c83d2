//! What a client makes of responses.

ghost use Rattle.std.specs.Prelude.{◌≡◌, ◌&&◌, not, List, ℕ};
ghost use Rattle.push_model.specs.Client.{Client};
ghost use Rattle.push_model.specs.Responding.{hears_response, met, takes, is_success};
ghost use Rattle.obex_session.specs.NextPut.{is_waiting};
ghost use Rattle.push_model.specs.Steps.{asks};
ghost use Rattle.push_client.specs.Talking.{placed};
ghost use Rattle.push_client.specs.Requesting.{ask_of};

use crate::asking::Ask;
use crate::causes::{of_obex, unawaited_response, unknown_parameters};
use crate::course::Course;
use obex_session::{Answered, ClientSession};
use push_model::Contact;
use push_terms::Outcome;

/// Where a push is, how far the client is with its server, and the session that they have.
#[derive(Drop)]
pub(crate) struct Dialog {
    pub(crate) course: Course,
    pub(crate) contact: Contact,
    pub(crate) session: ClientSession,
    /// The last request is not wholly sent.
    pub(crate) going: bool,
}

/// Whether a response says that its request succeeded.
fn is_success(answer: Answered) -> bool
    ensures { result ≡ is_success answer }
{
    matches!(answer, Answered::Go | Answered::Done)
}

/// How far a client is after a success, of which the first is that of CONNECT.
fn met(contact: Contact) -> Contact
    ensures { result ≡ met contact }
{
    match contact {
        Contact::Unmet => Contact::Met,
        _ => contact,
    }
}

impl Dialog {
    /// What is to be asked next: nothing is put any more where there is a cause, and an object that is under way is aborted.
    pub(crate) fn next_ask(&self) -> Ask
        ensures { ask_of result ≡ asks self.now.contact self.now.course.cause self.now.session.put }
    {
        match (self.contact, self.course.cause) {
            (Contact::Unmet, None) => Ask::Connect,
            (Contact::Met, None) => Ask::Put,
            (Contact::Met, Some(_)) if self.session.is_under_way() => Ask::Abort,
            (Contact::Met, Some(_)) => Ask::Disconnect,
            (Contact::Unmet, Some(_)) | (Contact::Left, _) => Ask::Close,
            (Contact::Closing, _) => Ask::Nothing,
        }
    }

    /// Whether the request before was sent to its last octet, and none waits for its response.
    pub(crate) fn may_ask(&self) -> bool
        ensures { result ≡ (not self.now.going && not (is_waiting self.now.session.awaited)) }
    {
        !self.going && self.session.may_ask()
    }

    /// Hears a response. One that no request waits for ends the push, and so does a success that comes before the last octet
    /// of its request was sent.
    pub(crate) fn hear_response(&mut self, packet: &[u8])
        ensures hears { (held : List ℕ) (client : Client) → hears_response packet.now (placed self.old held client) ≡ placed self.new held client }
        ensures maximum { self.new.session.maximum ≡ self.old.session.maximum }
    {
        if !self.session.is_awaiting() {
            self.course.end(unawaited_response());
            return;
        }
        let is_early = self.going || self.session.is_streaming();
        let answer = self.session.on_response(packet);
        if is_early && is_success(answer) {
            self.course.end(unawaited_response());
            return;
        }
        self.take(answer);
    }

    /// Takes what a response says.
    fn take(&mut self, answer: Answered)
        ensures takes { (held : List ℕ) (client : Client) → takes answer (placed self.old held client) ≡ placed self.new held client }
        ensures maximum { self.new.session.maximum ≡ self.old.session.maximum }
    {
        match answer {
            Answered::Go => self.contact = met(self.contact),
            Answered::Done => self.course.end(Outcome::Done),
            Answered::Refused(code) => self.course.end(Outcome::Refused(code)),
            Answered::Bad(refusal) => self.course.end(of_obex(refusal)),
            Answered::Srmp => self.course.end(unknown_parameters()),
        }
    }
}
