//! What a query shows of itself.

use super::{Query, Stage};

impl Query {
    ghost use Rattle.std.specs.Prelude.{◌≡◌};
    ghost use Rattle.sdp_client.specs.Asking.{is_due};
    ghost use Rattle.sdp_client.specs.Views.{is_awaiting};

    /// Whether a request waits to be written.
    pub fn is_due(&self) -> bool
        ensures { result ≡ is_due self.now }
    {
        match self.stage {
            Stage::Due | Stage::Again => true,
            Stage::Written | Stage::Answered | Stage::Refused(_) => false,
        }
    }

    /// Whether a request was written, and its reply has not come.
    pub fn is_awaiting(&self) -> bool
        ensures { result ≡ is_awaiting self.now }
    {
        match self.stage {
            Stage::Written | Stage::Again => true,
            Stage::Due | Stage::Answered | Stage::Refused(_) => false,
        }
    }
}
