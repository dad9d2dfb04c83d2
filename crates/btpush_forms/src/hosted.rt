//! The forms that need hosts.

/// A form that needs hosts.
#[derive(Clone, Copy, Debug, PartialEq, Eq)]
pub enum Hosted {
    /// `push`.
    Push,
    /// `receive`.
    Receive,
    /// `make --number N`.
    Make(u32),
}
