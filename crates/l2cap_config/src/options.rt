//! The options that a list of them states.

ghost use Rattle.std.specs.Prelude.{◌≡◌, ◌++◌, List};
ghost use Rattle.l2cap_config.specs.Items.{Item, no_options, joined, options_in};

use crate::unknown::UnknownTypes;

/// Why options are refused.
#[derive(Clone, Copy, Debug, PartialEq, Eq)]
pub enum ConfigRefusal {
    /// The octets are no list of whole options, or a known option has a value of another length.
    BadOptionLength,
    /// An option is not known, and no hint.
    UnknownOption,
    /// The MTU is below 48.
    BadMtu,
    /// The mode is not the wished one.
    BadMode,
    /// The window is 0 or above 63.
    BadWindow,
    /// The MPS is below 8.
    BadMps,
}

/// The retransmission and flow control option (Core 5.1, Volume 3 Part A, section 5.4). Times are in
/// milliseconds.
#[derive(Clone, Copy, Debug, PartialEq, Eq)]
pub struct ModeOption {
    pub mode: u8,
    pub window: u8,
    pub tries: u8,
    pub retransmit: u16,
    pub monitor: u16,
    pub mps: u16,
}

/// What a list of options states: of each type what its last option says.
#[derive(Debug, Drop)]
pub struct Options {
    pub mtu: Option<u16>,
    pub mode: Option<ModeOption>,
    pub fcs: Option<u8>,
    /// The types of the options that are not known and no hints.
    pub unknown: UnknownTypes,
}

impl Options {
    /// No options.
    pub fn none() -> Options
        ensures { result ≡ no_options }
    {
        Options {
            mtu: None,
            mode: None,
            fcs: None,
            unknown: UnknownTypes::new(),
        }
    }

    /// The same options again.
    pub fn copied(&self) -> Options
        ensures { result ≡ self.now }
    {
        Options {
            mtu: self.mtu,
            mode: self.mode,
            fcs: self.fcs,
            unknown: self.unknown.copied(),
        }
    }

    /// Adds the options of a list that follows.
    pub(crate) fn join(&mut self, later: &Options)
        ensures { self.new ≡ joined self.old later.now }
    {
        self.mtu = later.mtu.or(self.mtu);
        self.mode = later.mode.or(self.mode);
        self.fcs = later.fcs.or(self.fcs);
        self.unknown.join(&later.unknown);
    }
}

/// The options of two lists, one after the other.
pub fn merged(earlier: &Options, later: &Options) -> Options
    ensures both { result ≡ joined earlier.now later.now }
    // They are what the lists state, joined to one.
    ensures lists { (xs ys : List Item) → earlier.now ≡ options_in xs → later.now ≡ options_in ys → result ≡ options_in (xs ++ ys) }
{
    let mut all = earlier.copied();
    all.join(later);
    all
}
