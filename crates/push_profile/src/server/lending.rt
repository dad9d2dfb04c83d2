//! What a server sends.

ghost use Rattle.std.specs.Prelude.{◌≡◌, None};
ghost use Rattle.push_model.specs.rfcomm_model.specs.Saying.{next};
ghost use Rattle.push_model.specs.Server.{filled, said_on, breaks_now, framed, outlet_of, lends, stepped, lent_sdu};
ghost use Rattle.bt_base.specs.Numbers.{IsPsm};
ghost use Rattle.push_profile.specs.Serving.{IsPsmOf, AreLent};

use super::{OBJECT_PSM, PushServer, RFCOMM_PSM, SEARCH_PSM};
use bt_base::Psm;
use push_model::Outlet;

impl PushServer {
    /// How many credits its multiplexer holds: so many data frames may go out.
    pub fn credits(&self) -> u16
        ensures { result ≡ self.now.mux.account.held }
    {
        self.mux.credits()
    }

    /// Lends the SDU that is to be sent next, and answers the PSM of its channel: that of a reply to a search, then that of a
    /// response over L2CAP, then that of a frame of the multiplexer. None where nothing waits. `sdu` has its octets. The same
    /// SDU is lent until `stepped` or until its channel is closed.
    pub fn next_sdu(&mut self) -> Option<Psm>
        ensures server { self.new ≡ lends self.old }
        ensures psm { IsPsmOf (lent_sdu self.new) result }
        ensures sessions { self.new.listener.service.sessions ≡ self.old.listener.service.sessions }
    {
        self.lend();
        self.psm()
    }

    /// The octets of the SDU that is lent; none where none is.
    pub fn sdu(&self) -> &[u8]
        ensures { AreLent (lent_sdu self.now) result.now }
    {
        match self.lent {
            None => &[],
            Some(Outlet::Records) => &self.reply,
            Some(Outlet::Direct) => &self.reception.listener.service.response,
            Some(Outlet::Muxed) => self.frame.octets(),
        }
    }

    /// The channel took the SDU that was lent last.
    pub fn stepped(&mut self)
        ensures server { self.new ≡ stepped self.old }
        ensures sessions { self.new.listener.service.sessions ≡ self.old.listener.service.sessions }
    {
        match self.lent {
            None => {}
            Some(Outlet::Records) => self.reply.clear(),
            Some(Outlet::Direct) => self.reception.listener.service.clear_response(),
            Some(Outlet::Muxed) => self.frame.clear(),
        }
        self.lent = None;
    }

    /// The PSM of the channel of what is lent.
    fn psm(&self) -> Option<Psm>
        ensures { IsPsmOf (lent_sdu self.now) result }
    {
        match self.lent? {
            Outlet::Records => Some(psm_of(SEARCH_PSM)),
            Outlet::Direct => Some(psm_of(OBJECT_PSM)),
            Outlet::Muxed if self.frame.is_there() => Some(psm_of(RFCOMM_PSM)),
            Outlet::Muxed => None,
        }
    }

    /// Something is lent, if anything waits.
    fn lend(&mut self)
        ensures { self.new ≡ lends self.old }
    {
        if self.lent.is_some() {
            return;
        }
        if self.reply.is_empty() && self.reception.listener.service.response.is_empty() {
            self.lend_frame();
        }
        self.lent = self.outlet();
    }

    /// Where the SDU goes that is sent next.
    fn outlet(&self) -> Option<Outlet>
        ensures { result ≡ outlet_of self.now }
    {
        if !self.reply.is_empty() {
            Some(Outlet::Records)
        } else if !self.reception.listener.service.response.is_empty() {
            Some(Outlet::Direct)
        } else if self.frame.is_there() {
            Some(Outlet::Muxed)
        } else {
            None
        }
    }

    /// The frame that is sent next waits. Once the response is out the multiplexer is closed where it is to be.
    fn lend_frame(&mut self)
        ensures { self.new ≡ framed self.old }
    {
        if self.frame.is_there() {
            return;
        }
        self.fill();
        self.say();
        if self.frame.is_there() || !self.breaks_now() {
            return;
        }
        self.mux.close();
        self.say();
    }

    /// The frame that the multiplexer says next waits, if there is one.
    fn say(&mut self)
        ensures { self.new ≡ said_on (next self.old.mux) self.old }
    {
        self.frame.say(&mut self.mux);
    }

    /// Whether the multiplexer is to be closed now.
    fn breaks_now(&self) -> bool
        ensures { result ≡ breaks_now self.now }
    {
        self.reception.listener.breaks && self.reception.listener.service.answer.is_empty()
    }

    /// The multiplexer takes of the response what it may.
    fn fill(&mut self)
        ensures { self.new ≡ filled self.old }
    {
        if !self.mux.is_ready() || self.reception.listener.service.answer.is_empty() {
            return;
        }
        let count = self.mux.send(&self.reception.listener.service.answer);
        self.reception.listener.service.cut_answer(count);
    }
}

/// A PSM of that number.
fn psm_of(number: u16) -> Psm
    requires { IsPsm number }
    ensures { result ≡ number }
{
    let Some(psm) = Psm::of(number) else {
        unreachable!()
    };
    psm
}
