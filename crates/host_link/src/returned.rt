//! What a controller returns for the commands of a host.

ghost use Rattle.std.specs.Prelude.{◌≡◌, ◌≤◌, MatchResult, Some, None};
ghost use Rattle.host_link.specs.Returning.{returned_by, status_in, buffers_in, returned_fault, completes};

use crate::news::ControllerFault;
use crate::opcode::Opcode;
use hci_packets::buffers_of;

/// The return parameters of Command Complete.
#[derive(Clone, Copy, Debug)]
pub enum Returned {
    /// They have another length than the command returns.
    Refused,
    /// Command Complete does not answer this command of a host.
    Unlisted,
    /// A status, with nothing that a host uses.
    Status(u8),
    /// The status, and the ACL packets that the controller takes: their length in octets, and how
    /// many.
    Buffers { status: u8, length: u16, count: u16 },
}

/// The return parameters that these octets are, for the command of that number.
pub fn returned_by(opcode: u16, params: &[u8]) -> Returned
    ensures { result ≡ returned_by opcode params.now }
{
    match Opcode::of(opcode) {
        Some(Opcode::Reset | Opcode::WriteScanEnable) => status_in(1, params),
        Some(Opcode::ReadBdAddr) => status_in(7, params),
        Some(Opcode::ReadBufferSize) => buffers_in(params),
        _ => Returned::Unlisted,
    }
}

/// The status at the front of `length` octets, at least one.
fn status_in(length: usize, params: &[u8]) -> Returned
    requires { 1 ≤ length }
    ensures { result ≡ status_in length params.now }
{
    if params.len() == length {
        Returned::Status(params[0])
    } else {
        Returned::Refused
    }
}

fn buffers_in(params: &[u8]) -> Returned
    ensures { result ≡ buffers_in params.now }
{
    match buffers_of(params) {
        Ok(buffers) => Returned::Buffers {
            status: buffers.status,
            length: buffers.acl_length,
            count: buffers.acl_count,
        },
        Err(_) => Returned::Refused,
    }
}

/// Whether Command Complete answers the command of that number.
pub fn completes(opcode: u16) -> bool
    ensures { result ≡ completes opcode }
{
    matches!(
        Opcode::of(opcode),
        Some(Opcode::Reset | Opcode::WriteScanEnable | Opcode::ReadBdAddr | Opcode::ReadBufferSize)
    )
}

impl Returned {
    /// What is wrong with it as the answer to the command of that number: a status other than 0,
    /// or buffers that a host cannot use.
    pub fn judge(self, opcode: u16) -> Result<(), ControllerFault>
        ensures { MatchResult result (λ _. returned_fault opcode self ≡ None) (λ fault. returned_fault opcode self ≡ Some fault) }
    {
        match self {
            Returned::Refused | Returned::Unlisted => Ok(()),
            Returned::Status(status) | Returned::Buffers { status, .. } if status != 0 => {
                Err(ControllerFault::CommandFailed { opcode, status })
            }
            Returned::Buffers { length, count, .. } if length < 27 || count == 0 => {
                Err(ControllerFault::BadBuffers { length, count })
            }
            Returned::Status(_) | Returned::Buffers { .. } => Ok(()),
        }
    }
}
