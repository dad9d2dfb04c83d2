//! Why a host cannot go on.

ghost use Rattle.std.specs.Prelude.{◌≡◌};

use h4_framing::H4Refusal;
use host_link::ControllerFault;

/// Why a host does not take what it is fed. After the first three it answers the same for good. A place is counted in octets
/// from the first that was ever fed, and stands still at the greatest number.
#[derive(Clone, Copy, Debug, PartialEq, Eq)]
pub enum FeedRefusal {
    /// The octets are no packets; with the place of the fault.
    Transport(H4Refusal, u64),
    /// The command of that number failed with that status; with the place of the packet that says so.
    CommandFailed(u16, u8, u64),
    /// The controller's ACL packets are too short, or it takes none: their greatest length in octets, how many it takes,
    /// and the place of the packet that says so.
    BadBuffers(u16, u16, u64),
    /// No memory could be had.
    NoMemory,
}

impl FeedRefusal {
    ghost use Rattle.bt_host.specs.Refusals.{refusal_by};

    /// The refusal of a packet at that place, at which the controller is at fault.
    pub(crate) fn by(fault: ControllerFault, place: u64) -> FeedRefusal
        ensures { result ≡ refusal_by fault place }
    {
        match fault {
            ControllerFault::CommandFailed { opcode, status } => {
                FeedRefusal::CommandFailed(opcode, status, place)
            }
            ControllerFault::BadBuffers { length, count } => {
                FeedRefusal::BadBuffers(length, count, place)
            }
        }
    }
}
