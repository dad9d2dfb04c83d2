//! What a client's session shows of itself.

ghost use Rattle.std.specs.Prelude.{◌≡◌, not, is_some};
ghost use Rattle.obex_session.specs.NextPut.{is_waiting};
ghost use Rattle.obex_session.specs.Views.{is_stream, is_final_put};

use super::ClientSession;
use crate::asking::{Request, is_waiting};

impl ClientSession {
    /// Whether a request has no response yet: `on_response` may be called.
    pub fn is_awaiting(&self) -> bool
        ensures { result ≡ is_some self.now.awaited }
    {
        self.awaited.is_some()
    }

    /// Whether a request may be written: none waits for its response, or more PUTs follow in single response mode.
    pub fn may_ask(&self) -> bool
        ensures { result ≡ not (is_waiting self.now.awaited) }
    {
        !is_waiting(self.awaited)
    }

    /// Whether PUTs behind the first wait for a response in single response mode, and more follow.
    pub fn is_streaming(&self) -> bool
        ensures { result ≡ is_stream self.now.awaited }
    {
        matches!(self.awaited, Some(Request::Stream))
    }

    /// Whether the final PUT of an object waits for its response.
    pub fn has_put_all(&self) -> bool
        ensures { result ≡ is_final_put self.now.awaited }
    {
        matches!(self.awaited, Some(Request::FinalPut))
    }

    /// Whether an object is under way: a PUT of it was written, and neither the final one nor a request of another kind.
    pub fn is_under_way(&self) -> bool
        ensures { result ≡ is_some self.now.put }
    {
        self.put.is_some()
    }
}
