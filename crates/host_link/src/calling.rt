//! Whether a host asks for a link, and whether it may ask for the end of one.

ghost use Rattle.std.specs.Prelude.{◌≡◌, ◌||◌};
ghost use Rattle.std.specs.List.{list_any};
ghost use Rattle.host_link.specs.Calling.{may_end};
ghost use Rattle.host_link.specs.HostCommands.{asks};

use crate::host_link::HostLink;

impl HostLink {
    /// Whether a link is asked for: a Connection Complete is awaited, or a command from which it will
    /// be waits to be put out (Core 5.1, Volume 2 Part E, 7.1.5 and 7.1.8).
    pub fn is_asking(&self) -> bool
        ensures { result ≡ (self.now.asked || list_any asks self.now.commands.waiting) }
    {
        self.asked || self.commands.has_call()
    }

    /// Whether the end of the link that is up may be asked for: it was not, and no Disconnect of a
    /// link before waits to be put out (7.1.6).
    pub fn may_end(&self) -> bool
        ensures { result ≡ may_end self.now }
    {
        self.link.is_some() && !self.ending && !self.commands.has_end()
    }
}
