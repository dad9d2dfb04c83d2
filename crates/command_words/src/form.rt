//! What the program can be asked to do.

use push_terms::Side;

/// What the program can be asked to do.
#[derive(Clone, Copy, Debug, PartialEq, Eq)]
pub enum Form {
    /// `decode`: it shows the units of a stream.
    Decode,
    /// `decode --tagged`: it shows the entries of a capture.
    DecodeTagged,
    /// `decode --snoop`: it shows the records of a btsnoop file.
    DecodeSnoop,
    /// `push`: it runs a scenario.
    Push,
    /// `receive`: it is a host that receives.
    Receive,
    /// `make --number N`: it runs the generated scenario of that number.
    Make(u32),
    /// `snoop --side a` or `snoop --side b`: it makes a capture the btsnoop file of that host.
    Snoop(Side),
    /// `wire`: it carries units over a three-wire line, which loses none. `wire --number N`: one which
    /// loses packets by the draws of that number.
    Wire(Option<u32>),
}
