//! What was answered to the last request of each kind.

ghost use Rattle.std.specs.Prelude.{◌≡◌, option_map};
ghost use Rattle.channel_model.specs.Value as value;
ghost use Rattle.channel_model.specs.Answers.{remembered, with_remembered};

use crate::identifier::Identifier;
use crate::response::Response;
use channel_model::RequestKind;

/// What was answered to the last request of a kind.
#[derive(Clone, Copy)]
pub(crate) struct Remembered {
    pub(crate) identifier: Identifier,
    pub(crate) response: Option<Response>,
}

/// The last request of each kind, and what was answered to it.
#[derive(Clone, Copy)]
pub(crate) struct Memory {
    connection: Option<Remembered>,
    configuration: Option<Remembered>,
    disconnection: Option<Remembered>,
    echo: Option<Remembered>,
    information: Option<Remembered>,
}

impl Memory {
    ghost use Rattle.l2cap_channels.specs.Memories.{remembered_value, memory_value};

    /// No requests came.
    pub(crate) fn new() -> Memory
        ensures { memory_value result ≡ value.no_memory }
    {
        Memory {
            connection: None,
            configuration: None,
            disconnection: None,
            echo: None,
            information: None,
        }
    }

    /// The last request of a kind.
    pub(crate) fn last(&self, kind: RequestKind) -> Option<&Remembered>
        ensures { option_map (λ last. remembered_value last.now) result ≡ remembered kind (memory_value self.now) }
    {
        match kind {
            RequestKind::Connection => self.connection.as_ref(),
            RequestKind::Configuration => self.configuration.as_ref(),
            RequestKind::Disconnection => self.disconnection.as_ref(),
            RequestKind::Echo => self.echo.as_ref(),
            RequestKind::Information => self.information.as_ref(),
        }
    }

    /// This is the last request of a kind for now.
    pub(crate) fn note(&mut self, kind: RequestKind, last: &Remembered)
        ensures { memory_value self.new ≡ with_remembered kind (remembered_value last.now) (memory_value self.old) }
    {
        let last = Some(*last);
        match kind {
            RequestKind::Connection => self.connection = last,
            RequestKind::Configuration => self.configuration = last,
            RequestKind::Disconnection => self.disconnection = last,
            RequestKind::Echo => self.echo = last,
            RequestKind::Information => self.information = last,
        }
    }
}
