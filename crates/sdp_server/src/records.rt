//! The service records of a server.

ghost use Rattle.std.specs.Prelude.{◌≡◌, ◌≤◌, ◌++◌, length, drop};
ghost use Rattle.sdp_server.specs.Replies.{reply_to};

use crate::replies::reply_to;
use bt_base::Serves;
use std::marker::Model;

/// The one service record of a server of Object Push. A clause sees the transports that it offers.
#[derive(Clone, Copy, Debug)]
pub struct Records {
    serves: Serves,
}

impl Model for Records {
    ghost use Rattle.bt_base.specs.declared.settings.Serves.{Serves};

    ghost Value = { Serves };

    ghost view = { λ records. records.serves };

    ghost inverse = { λ serves. record { serves = serves } };
}

impl Records {
    /// The service record with the protocols and the PSM of these transports.
    pub fn new(serves: Serves) -> Records
        ensures { result ≡ serves }
    {
        Records { serves }
    }

    /// Writes the one reply to a request, whatever octets it has, and answers how many octets the
    /// reply has (Core 5.1, Volume 3 Part B, 4.4 to 4.7). The octets behind it are left unchanged.
    ///
    /// It needs at least 48 octets of room. The reply is an error, or a part of the answer to what
    /// the request asks. Of several errors the first of these is given: no PDU, or a stated length
    /// that is not that of its parameters (code 4), parameters that are none of a request (3), a
    /// handle of no record (2), a continuation state that names no place within the answer (5).
    /// Nothing is kept between requests: the same request has the same reply.
    pub fn reply(&self, request: &[u8], into: &mut [u8]) -> usize
        requires { 48 ≤ length into.old }
        ensures len { result ≡ length (reply_to self.now (length into.old) request.now) }
        ensures written { into.new ≡ reply_to self.now (length into.old) request.now ++ drop result into.old }
        ensures fits { result ≤ length into.old }
    {
        let reply = reply_to(self.serves, request, into.len());
        let end = reply.len();
        into[..end].copy_from_slice(&reply);
        end
    }
}
