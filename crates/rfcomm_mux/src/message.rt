//! A control message that waits.

ghost use Rattle.std.specs.Prelude.{◌≡◌, ◌≤◌, length, take};
ghost use Rattle.bt_base.specs.Octets.{IsOctets};
ghost use Rattle.rfcomm_frames.specs.Controls.{plain_control, IsControl, written};

use rfcomm_frames::{Control, put_control};

/// The octets of a control message: so many of these, from the front on.
#[derive(Clone, Copy)]
pub(crate) struct Message {
    pub(crate) size: usize,
    pub(crate) octets: [u8; 40],
    ghost within: { size ≤ 40 },
}

impl Message {
    /// The octets that spell a control message.
    pub(crate) fn new(control: &Control<'_>) -> Message
        requires fits { IsControl (plain_control control.now) }
        requires short { length (written (plain_control control.now)) ≤ 40 }
        ensures { take result.size result.octets ≡ written (plain_control control.now) }
    {
        let mut octets = [0; 40];
        let size = put_control(control, &mut octets);
        Message { size, octets }
    }

    /// These octets.
    pub(crate) fn octets(&self) -> &[u8]
        ensures octets { result.now ≡ take self.now.size self.now.octets }
        ensures short { length result.now ≤ 40 }
    {
        &self.octets[..self.size]
    }
}
