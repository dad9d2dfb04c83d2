//! Commands of a host.

ghost use Rattle.std.specs.Prelude.{◌≡◌, true, OnOk, OnErr};
ghost use Rattle.hci_packets.specs.Commands.{plain_command, ReadBufferSize};
ghost use Rattle.radio_model.specs.Owed.{after_kind, owes_many};
ghost use Rattle.radio_model.specs.Radio.{after_command};

use crate::answer::Answer;
use crate::radio::Radio;
use bt_base::NoMemory;
use hci_packets::{Command, command_of};
use push_terms::Side;

const CREATE_CONNECTION: u16 = 0x0405;

const DISCONNECT: u16 = 0x0406;

const ACCEPT_CONNECTION: u16 = 0x0409;

const RESET: u16 = 0x0C03;

const WRITE_SCAN_ENABLE: u16 = 0x0C1A;

impl Radio {
    /// A host sends a command (Core 5.1, Volume 2 Part E, 7). One whose parameters are refused does
    /// nothing.
    pub(crate) fn obey(&mut self, side: Side, opcode: u16, params: &[u8]) -> Result<(), NoMemory>
        ensures ok { OnOk result (self.new ≡ after_command side opcode params.now self.old) }
        ensures full { OnErr result (owes_many 15 self.old ≡ true) }
    {
        let Ok(command) = command_of(opcode, params) else {
            return Ok(());
        };
        self.do_command(side, &command)?;
        Ok(())
    }

    /// Answers a command, and does what it says.
    fn do_command(&mut self, side: Side, command: &Command<'_>) -> Result<(), NoMemory>
        ensures ok { OnOk result (self.new ≡ after_kind side (plain_command command.now) self.old) }
        ensures full { OnErr result (owes_many 15 self.old ≡ true) }
    {
        match *command {
            Command::CreateConnection { .. } => {
                self.owe(side, Answer::Stated(CREATE_CONNECTION))?;
                self.page(side)
            }
            Command::Disconnect { handle, .. } => {
                self.owe(side, Answer::Stated(DISCONNECT))?;
                self.disconnect(side, handle)
            }
            Command::AcceptConnection { .. } => {
                self.owe(side, Answer::Stated(ACCEPT_CONNECTION))?;
                self.accept(side)
            }
            Command::Reset => self.owe(side, Answer::Done(RESET)),
            Command::WriteScanEnable { value } => {
                self.scan(side, value);
                self.owe(side, Answer::Done(WRITE_SCAN_ENABLE))?;
                self.reach()
            }
            Command::ReadBufferSize => self.owe_sizes(side),
            Command::ReadBdAddr => self.owe(side, Answer::Address(side)),
            Command::Other { .. } => Ok(()),
        }
    }

    fn owe_sizes(&mut self, side: Side) -> Result<(), NoMemory>
        ensures ok { OnOk result (self.new ≡ after_kind side ReadBufferSize self.old) }
        ensures full { OnErr result (owes_many 15 self.old ≡ true) }
    {
        let answer = Answer::BufferSizes {
            size: self.size,
            count: self.count,
        };
        self.owe(side, answer)
    }
}
