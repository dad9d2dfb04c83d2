//! What a server's session says of a packet before it hears it.

ghost use Rattle.std.specs.Prelude.{◌≡◌, None};
ghost use Rattle.obex_headers.specs.Reading.{packet_in};
ghost use Rattle.obex_headers.specs.declared.packet.Phase.TheVariants.{Request};
ghost use Rattle.obex_session.specs.Marks.{kind_of};
ghost use Rattle.obex_session.specs.Serving.{kind_heard, has_name};
ghost use Rattle.obex_session.specs.Views.{is_silence, is_silent};

use super::ServerSession;
use crate::hearing::hear;
use crate::marks::{Kind, kind_of};
use crate::responding::{Saying, said_after};
use bt_base::{Inbox, PortFault};
use obex_headers::{Phase, packet_of};

/// An inbox that stores nothing and never fails.
#[derive(Drop)]
struct Unfailing {
    is_pending: bool,
}

impl Inbox for Unfailing {
    ghost content = { λ inbox. None };

    ghost is_pending = { λ inbox. inbox.is_pending };

    ghost faults = { λ inbox. 0 };

    ghost shortages = { λ inbox. 0 };

    ghost told = { λ inbox. tt };

    fn begin(&mut self, _name: &[u16]) -> Result<(), PortFault> {
        self.is_pending = true;
        Ok(())
    }

    fn append(&mut self, _piece: &[u8]) -> Result<(), PortFault> {
        self.is_pending = true;
        Ok(())
    }

    fn commit(&mut self) -> Result<(), PortFault> {
        self.is_pending = false;
        Ok(())
    }

    fn abort(&mut self) -> Result<(), PortFault> {
        self.is_pending = false;
        Ok(())
    }
}

/// What the octets are to a server.
fn kind_in(maximum: u16, packet: &[u8]) -> Kind
    ensures { result ≡ kind_of (packet_in Request maximum packet.now) }
{
    let Ok(request) = packet_of(packet, Phase::Request, maximum) else {
        return Kind::Refused;
    };
    kind_of(&request)
}

fn has_name(kind: Kind) -> bool
    ensures { result ≡ has_name kind }
{
    match kind {
        Kind::Put(_, marks) => marks.name,
        Kind::Refused | Kind::Other(_) => false,
    }
}

fn is_silence(saying: Saying) -> bool
    ensures { result ≡ is_silence saying }
{
    matches!(saying, Saying::Silence)
}

impl ServerSession {
    /// Whether the octets are a PUT with a Name: with it an object begins, if one may.
    pub fn is_naming(&self, packet: &[u8]) -> bool
        ensures { result ≡ has_name (kind_heard self.now packet.now) }
    {
        has_name(kind_in(self.maximum, packet))
    }

    /// Whether the packet is answered with nothing, as single response mode has it, if no call of the inbox fails.
    pub fn is_silent(&self, packet: &[u8]) -> bool
        ensures { result ≡ is_silent self.now packet.now }
    {
        let mut inbox = Unfailing {
            is_pending: self.course.progress().is_under_way(),
        };
        let heard = hear(self.maximum, self.course, packet, &mut inbox);
        is_silence(said_after(self.offered, self.course, heard.kind, heard.outcome))
    }
}
