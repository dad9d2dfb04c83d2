//! A client searches for the way to its server.

ghost use Rattle.std.specs.Prelude.{◌≡◌, false, List};
ghost use Rattle.push_model.specs.sdp_elements.specs.Targets.{is_service_psm, is_server_channel, kept};
ghost use Rattle.push_model.specs.Events.{kept_of, found_psm, found_channel, found_way, finds, hears_reply, fires};
ghost use Rattle.push_model.specs.Steps.{Part, steps_search};
ghost use Rattle.push_model.specs.declared.course.Stage.TheVariants.{Search};
ghost use Rattle.push_client.specs.Pushing.{gone, wants_memory};

use super::{PushClient, RFCOMM_PSM, SEARCH_PSM, psm_of};
use crate::causes::of_query;
use crate::step::Step;
use bt_base::{Psm, Transport};
use push_model::{Point, Stage};
use push_terms::Outcome;
use sdp_client::{Found, Target};

/// The PSM of that number, where a service may have it.
fn service_psm(number: u16) -> Option<Psm>
    ensures { result ≡ kept is_service_psm number }
{
    let psm = Psm::of(number)?;
    if number == SEARCH_PSM || number == RFCOMM_PSM {
        return None;
    }
    Some(psm)
}

/// The server channel of that number, where there is one.
fn server_channel(number: u8) -> Option<u8>
    ensures { result ≡ kept is_server_channel number }
{
    if (1..=30).contains(&number) {
        Some(number)
    } else {
        None
    }
}

impl PushClient {
    /// The next request to the service records, where one is due.
    pub(super) fn search(&mut self) -> Step
        requires { self.old.stage ≡ Search }
        ensures failed { self.new.failed ≡ self.old.failed }
        ensures works { wants_memory result ≡ false }
        ensures steps { (parts : List Part) → steps_search self.old parts ≡ gone self.new result parts }
    {
        if !self.query.is_due() {
            return Step::Wait;
        }
        self.outgoing.search(&mut self.query);
        self.left = self.left.saturating_sub(1);
        self.given = true;
        Step::SendSdu(psm_of(SEARCH_PSM))
    }

    /// The timer fired: the request that waits for its reply is sent once more, unless its last sending still waits. Where it
    /// was sent as often as may be, the push ends.
    pub fn fire(&mut self)
        ensures { self.new ≡ fires self.old }
    {
        if !self.armed() || self.given || self.query.is_due() {
            return;
        }
        if self.left == 0 {
            self.reception.dialog.course.end(Outcome::RetryLimit);
        } else {
            self.query.resend();
        }
    }

    /// Hears a reply of the service records.
    pub(super) fn hear_reply(&mut self, reply: &[u8])
        ensures { self.new ≡ hears_reply reply.now self.old }
    {
        let found = self.query.on_reply(reply);
        self.find(found);
    }

    /// Goes on with what was found.
    fn find(&mut self, found: Found)
        ensures { self.new ≡ finds found self.old }
    {
        match found {
            Found::More => self.left = self.tries,
            Found::Service(target) => self.find_way(target),
            Found::NoService => self.reception.dialog.course.end(Outcome::NoService),
            Found::Refused(reason) => self.reception.dialog.course.end_if(of_query(reason)),
        }
    }

    /// Takes the way to the service over the own transport, where one is named.
    fn find_way(&mut self, target: Target)
        ensures { self.new ≡ found_way self.old.transport target self.old }
    {
        match self.transport {
            Transport::L2cap => self.take_psm(target.l2cap),
            Transport::Rfcomm => self.take_channel(target.rfcomm),
        }
    }

    /// Takes the PSM of the service.
    fn take_psm(&mut self, named: Option<u16>)
        ensures { self.new ≡ found_psm (kept_of is_service_psm named) self.old }
    {
        let Some(psm) = named.and_then(service_psm) else {
            self.reception.dialog.course.end(Outcome::NoService);
            return;
        };
        self.psm = psm;
        self.reception.dialog.course.stage = Stage::SearchEnd(Point::Due);
    }

    /// Takes the server channel of the service.
    fn take_channel(&mut self, named: Option<u8>)
        ensures { self.new ≡ found_channel (kept_of is_server_channel named) self.old }
    {
        let Some(channel) = named.and_then(server_channel) else {
            self.reception.dialog.course.end(Outcome::NoService);
            return;
        };
        self.psm = psm_of(RFCOMM_PSM);
        self.channel = channel;
        self.reception.dialog.course.stage = Stage::SearchEnd(Point::Due);
    }
}
