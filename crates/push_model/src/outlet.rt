/// Where an SDU of a server goes.
#[derive(Clone, Copy, Debug, PartialEq, Eq)]
pub enum Outlet {
    /// To the client that searches the service records.
    Records,
    /// To the client over L2CAP.
    Direct,
    /// To the multiplexer of the client over RFCOMM.
    Muxed,
}
