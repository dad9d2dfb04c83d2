/// A control message of the multiplexer (TS 07.10, 5.4.6.3; RFCOMM 1.2, 4.3). It is a command where
/// the C/R bit of its type is set, and else a response. What it lends are octets of its own octets.
#[derive(Clone, Copy, Debug, PartialEq, Eq)]
pub enum Control<'a> {
    /// PN: the parameters of a channel (RFCOMM 1.2, 5.5.3). Each octet is there whole.
    Pn {
        command: bool,
        /// The channel.
        dlci: u8,
        /// What is said of credit based flow control: its high four bits are F where it is asked
        /// for and E where it is granted.
        flow: u8,
        priority: u8,
        /// The acknowledgement timer, which RFCOMM leaves 0.
        timer: u8,
        /// The most octets of information that a frame carries.
        frame: u16,
        retransmissions: u8,
        /// The credits that the sender grants from the start on, in the low three bits.
        credits: u8,
    },
    /// MSC: the modem signals of a channel. Each octet is there whole.
    Msc {
        command: bool,
        /// The channel's address octet.
        dlci: u8,
        signals: u8,
    },
    /// TEST: octets that come back.
    Test {
        command: bool,
        octets: &'a [u8],
    },
    /// RPN: the settings of a port.
    Rpn {
        command: bool,
        value: &'a [u8],
    },
    /// RLS: the state of a line.
    Rls {
        command: bool,
        value: &'a [u8],
    },
    /// NSC: a command with this type octet was not understood.
    Nsc(u8),
    /// A type octet that is none of these, and the value.
    Other(u8, &'a [u8]),
}
