//! What a multiplexer sends.

ghost use Rattle.std.specs.Prelude.{◌≡◌, ◌≤◌, length, take, drop};
ghost use Rattle.bt_base.specs.Octets.{IsOctets};
ghost use Rattle.rfcomm_frames.specs.Frames.{plain, credit_octets};
ghost use Rattle.rfcomm_model.specs.Saying.{passes, frame_of_command, commanded, says, says_grant, says_data, says_command, first_of, next};
ghost use Rattle.rfcomm_frames.specs.Controls.{plain_control, IsControl, written};
ghost use Rattle.rfcomm_model.specs.declared.state.Command.TheVariants.{Agree, Signal};
ghost use Rattle.rfcomm_model.specs.Written.{control_frame};
ghost use Rattle.rfcomm_mux.specs.Sent.{IsMade, IsWritten, Sends};

use super::Mux;
use crate::message::Message;
use crate::writing::{command_frame, control_frame as control_message, data_frame, grant_frame};
use rfcomm_frames::{Control, MuxFrame, MuxKind, Role, put_frame};
use rfcomm_model::{Asks, Command};

impl Mux {
    /// Writes the next SDU to be sent from the front of `into`, and answers how many octets it has:
    /// an answer that waits, else an own command, else a grant, else a data frame. None exactly where
    /// nothing of these waits. The octets behind it stay as they are. It needs 32,767 octets of room.
    pub fn next_sdu(&mut self, into: &mut [u8]) -> Option<usize>
        requires { 32767 ≤ length into.old }
        ensures { Sends (next self.old) self.old self.new result into.old into.new }
    {
        if let Some(answer) = self.answers.take() {
            let frame = answer.frame(self.answers.role());
            let n = put_sound(frame, into);
            self.passes(frame.dlci, frame.kind, frame.pf);
            return Some(n);
        }
        self.next_own(into)
    }

    /// Writes an own command that waits, else a grant, else a data frame.
    fn next_own(&mut self, into: &mut [u8]) -> Option<usize>
        requires { 32767 ≤ length into.old }
        ensures { Sends (says_command self.old.asks self.old) self.old self.new result into.old into.new }
    {
        if let Asks::Due(command) = self.asks {
            let n = self.put_command(command, into);
            self.commanded(command);
            return Some(n);
        }
        self.next_free(into)
    }

    /// Writes a grant, else a data frame.
    fn next_free(&mut self, into: &mut [u8]) -> Option<usize>
        requires { 32767 ≤ length into.old }
        ensures { Sends (first_of (says_grant self.old) (says_data self.old)) self.old self.new result into.old into.new }
    {
        if let Some(n) = self.next_grant(into) {
            return Some(n);
        }
        self.next_data(into)
    }

    /// Writes an own command.
    fn put_command(&self, command: Command, into: &mut [u8]) -> usize
        requires { 32767 ≤ length into.old }
        ensures sent { IsWritten result (take result into.new) (frame_of_command command self.now) }
        ensures rest { drop result into.new ≡ drop result into.old }
    {
        let role = self.answers.role();
        match command {
            Command::OpenControl => put_sound(command_frame(role, MuxKind::Sabm, 0), into),
            Command::OpenUser => put_sound(command_frame(role, MuxKind::Sabm, self.dlci), into),
            Command::LeaveUser => put_sound(command_frame(role, MuxKind::Disc, self.dlci), into),
            Command::LeaveControl => put_sound(command_frame(role, MuxKind::Disc, 0), into),
            Command::Agree => self.put_offer(into),
            Command::Signal => self.put_signals(into),
        }
    }

    /// An own command went out.
    fn commanded(&mut self, command: Command)
        ensures { self.new ≡ (says (frame_of_command command self.old) (commanded command self.old)).after }
    {
        self.asks = Asks::Awaited(command);
        match command {
            Command::OpenControl => self.passes(0, MuxKind::Sabm, true),
            Command::OpenUser => self.passes(self.dlci, MuxKind::Sabm, true),
            Command::LeaveUser => self.passes(self.dlci, MuxKind::Disc, true),
            Command::LeaveControl => self.passes(0, MuxKind::Disc, true),
            Command::Agree => self.stated = true,
            Command::Signal => {}
        }
    }

    /// Writes the PN command for the user channel.
    fn put_offer(&self, into: &mut [u8]) -> usize
        requires { 32767 ≤ length into.old }
        ensures sent { IsWritten result (take result into.new) (frame_of_command Agree self.now) }
        ensures rest { drop result into.new ≡ drop result into.old }
    {
        let offer = Control::Pn {
            command: true,
            dlci: self.dlci,
            flow: 0xF0,
            priority: 0,
            timer: 0,
            frame: self.own,
            retransmissions: 0,
            credits: self.own_credits(),
        };
        put_message(self.answers.role(), &offer, into)
    }

    /// Writes the MSC command for the user channel: ready to communicate, ready to receive, and data
    /// valid.
    fn put_signals(&self, into: &mut [u8]) -> usize
        requires { 32767 ≤ length into.old }
        ensures sent { IsWritten result (take result into.new) (frame_of_command Signal self.now) }
        ensures rest { drop result into.new ≡ drop result into.old }
    {
        let signals = Control::Msc {
            command: true,
            dlci: 4 * self.dlci + 3,
            signals: 0x8D,
        };
        put_message(self.answers.role(), &signals, into)
    }

    /// Writes a grant, if there is one.
    fn next_grant(&mut self, into: &mut [u8]) -> Option<usize>
        requires { 32767 ≤ length into.old }
        ensures { Sends (says_grant self.old) self.old self.new result into.old into.new }
    {
        let credits = self.account.to_grant();
        if !self.is_open() || credits == 0 {
            return None;
        }
        let n = put_sound(grant_frame(self.answers.role(), self.dlci, credits), into);
        self.account.gave(credits);
        self.passes(self.dlci, MuxKind::Uih, true);
        Some(n)
    }

    /// Writes the data frame that waits, where it may go.
    fn next_data(&mut self, into: &mut [u8]) -> Option<usize>
        requires { 32767 ≤ length into.old }
        ensures { Sends (says_data self.old) self.old self.new result into.old into.new }
    {
        if !self.is_ready() || self.pending.is_empty() || !self.account.may_send() {
            return None;
        }
        let frame = data_frame(self.answers.role(), self.dlci, self.pending.octets());
        let n = put_sound(frame, into);
        self.pending.clear();
        self.account.spent();
        self.passes(self.dlci, MuxKind::Uih, false);
        Some(n)
    }

    /// A frame that goes out counts for the own connections.
    fn passes(&mut self, dlci: u8, kind: MuxKind, pf: bool)
        ensures { self.new ≡ passes dlci kind pf self.old }
    {
        if !pf {
            return;
        }
        let role = self.answers.role();
        if dlci == 0 {
            self.control = self.control.turned(role, kind);
        }
        if dlci == self.dlci {
            self.user = self.user.turned(role, kind);
        }
    }
}

/// Writes a frame that may be written.
fn put_sound(frame: MuxFrame<'_>, into: &mut [u8]) -> usize
    requires fits { IsMade (plain frame) }
    requires few { length frame.octets.now ≤ 32761 }
    requires room { 32767 ≤ length into.old }
    ensures sent { IsWritten result (take result into.new) (plain frame.entry) }
    ensures rest { drop result into.new ≡ drop result into.old }
{
    are_octets(frame.octets);
    fits(frame.credits);
    put_frame(&frame, into)
}

/// Writes a control message of a side in a frame of its own.
fn put_message(role: Role, control: &Control<'_>, into: &mut [u8]) -> usize
    requires fits { IsControl (plain_control control.now) }
    requires short { length (written (plain_control control.now)) ≤ 40 }
    requires room { 32767 ≤ length into.old }
    ensures sent { IsWritten result (take result into.new) (control_frame role (plain_control control.now)) }
    ensures rest { drop result into.new ≡ drop result into.old }
{
    let message = Message::new(control);
    put_sound(control_message(role, message.octets()), into)
}

/// A slice has octets.
fn are_octets(octets: &[u8])
    ensures { IsOctets octets.now }
{
    let _ = octets;
}

/// A credit octet is an octet.
fn fits(credits: Option<u8>)
    ensures { IsOctets (credit_octets credits) }
{
    let _ = credits;
}
