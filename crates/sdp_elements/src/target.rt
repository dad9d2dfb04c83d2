//! The way to the service.

/// How the service is reached: by the PSM of L2CAP, by the server channel of RFCOMM, each where it
/// is named.
#[derive(Clone, Copy, Debug, PartialEq, Eq)]
pub struct Target {
    /// The PSM of the service over L2CAP.
    pub l2cap: Option<u16>,
    /// The server channel of the service over RFCOMM.
    pub rfcomm: Option<u8>,
}
