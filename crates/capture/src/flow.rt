/// The direction in which a packet moves between a host and its controller.
#[derive(Clone, Copy, Debug, PartialEq, Eq)]
pub enum Flow {
    /// Out of the host.
    Out,
    /// Into the host.
    Into,
}
