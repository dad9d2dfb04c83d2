//! What a multiplexer shows of itself, and how it comes to serve another channel.

ghost use Rattle.std.specs.Prelude.{◌≡◌, ◌≤◌, ◌*◌, not, nat_lt};
ghost use Rattle.rfcomm_frames.specs.FrameReading.{is_empty};
ghost use Rattle.rfcomm_model.specs.Machine.{new_mux};

use super::Mux;

impl Mux {
    /// Whether octets that were taken wait for their data frame.
    pub fn has_data(&self) -> bool
        ensures { result ≡ not (is_empty self.now.waiting) }
    {
        !self.pending.is_empty()
    }

    /// How many credits are held: so many data frames may go out.
    pub fn credits(&self) -> u16
        ensures { result ≡ self.now.account.held }
    {
        self.account.held()
    }

    /// Whether a credit is held.
    pub fn has_credit(&self) -> bool
        ensures { result ≡ nat_lt 0 self.now.account.held }
    {
        self.account.may_send()
    }

    /// Makes the multiplexer as it was made, on its side, with this server channel number and this own frame size. It takes
    /// no memory.
    pub fn reset_on(&mut self, channel: u8, frame: u16)
        requires channel { (1 ≤ channel) × (channel ≤ 30) }
        requires least { 23 ≤ frame }
        requires most { frame ≤ self.old.largest }
        ensures { self.new ≡ new_mux self.old.role (2 * channel) self.old.largest frame self.old.account.cap }
    {
        self.reset(frame);
        self.dlci = 2 * channel;
    }
}
