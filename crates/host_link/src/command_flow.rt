//! The flow of commands.

ghost use Rattle.std.specs.Prelude.{◌≡◌, [], None, ◌≤◌, length};
ghost use Rattle.host_link.specs.HostCommands.{start_commands, accepts, asks, opcode};
ghost use Rattle.host_link.specs.Calling.{ends};
ghost use Rattle.host_link.specs.CommandFlows.{with_command, next_command, after_command, awaits, stated, answered};
ghost use Rattle.std.specs.List.{list_any};

use crate::host_command::HostCommand;
use crate::role::Role;
use arrayvec::ArrayVec;
use std::marker::Model;

/// The commands that wait to be put out, and the one whose answer is awaited (Core 5.1, Volume 2
/// Part E, 4.4). A clause sees the commands, the number of the awaited one, and how many commands
/// the controller last said that it takes.
#[derive(Drop)]
pub struct CommandFlow {
    waiting: ArrayVec<HostCommand, 8>,
    awaited: Option<u16>,
    number: u8,
}

impl Model for CommandFlow {
    ghost use Rattle.std.specs.Prelude.{◌≤◌, length};
    ghost use Rattle.host_link.specs.CommandFlows.{Flow};

    ghost Value = { Flow };

    ghost view = { λ flow. record { waiting = flow.waiting.items; awaited = flow.awaited; number = flow.number } };

    ghost invariant = { λ flow. length flow.waiting.items ≤ 8 };
}

impl CommandFlow {
    /// The flow at the start: the start commands wait, and the controller takes one.
    pub fn new(role: Role) -> CommandFlow
        ensures { result ≡ record { waiting = start_commands role; awaited = None; number = 1 } }
    {
        let mut waiting = ArrayVec::new();
        waiting.push(HostCommand::Reset);
        waiting.push(HostCommand::ReadBufferSize);
        waiting.push(HostCommand::ReadBdAddr);
        if let Role::Server = role {
            waiting.push(HostCommand::WriteScanEnable);
        }
        CommandFlow {
            waiting,
            awaited: None,
            number: 1,
        }
    }

    /// Lets a command wait behind the others; where eight wait it is dropped.
    pub fn wait(&mut self, command: HostCommand)
        ensures { self.new ≡ with_command command self.old }
    {
        if self.waiting.len() < 8 {
            self.waiting.push(command);
        }
    }

    /// The command that may go out now, which is awaited then. `None` where none waits, or one is
    /// awaited already, or the controller takes none.
    pub fn take_next(&mut self) -> Option<HostCommand>
        ensures command { result ≡ next_command self.old }
        ensures after { self.new ≡ after_command (next_command self.old) self.old }
    {
        if self.awaited.is_some() || self.number == 0 {
            return None;
        }
        if self.waiting.is_empty() {
            return None;
        }
        let command = self.waiting.remove(0);
        self.awaited = Some(command.opcode());
        Some(command)
    }

    /// Whether the answer to the command of that number is awaited.
    pub fn awaits(&self, opcode: u16) -> bool
        ensures { result ≡ awaits opcode self.now }
    {
        match self.awaited {
            Some(awaited) => awaited == opcode,
            None => false,
        }
    }

    /// Whether an Accept Connection Request waits.
    pub fn has_accept(&self) -> bool
        ensures { result ≡ list_any accepts self.now.waiting }
    {
        self.waiting
            .as_slice()
            .iter()
            .any(|command| command.accepts())
    }

    /// Whether a command waits that asks for a link.
    pub fn has_call(&self) -> bool
        ensures { result ≡ list_any asks self.now.waiting }
    {
        self.waiting.as_slice().iter().any(|command| command.asks())
    }

    /// Whether a command waits that ends a link.
    pub fn has_end(&self) -> bool
        ensures { result ≡ list_any ends self.now.waiting }
    {
        self.waiting.as_slice().iter().any(|command| command.ends())
    }

    /// The controller says how many commands it takes.
    pub fn state(&mut self, number: u8)
        ensures { self.new ≡ stated number self.old }
    {
        self.number = number;
    }

    /// The controller answers the awaited command, and says how many commands it takes.
    pub fn answer(&mut self, number: u8)
        ensures { self.new ≡ answered number self.old }
    {
        self.awaited = None;
        self.number = number;
    }
}
