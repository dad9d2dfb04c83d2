//! The two directions of a link.

ghost use Rattle.std.specs.Prelude.{◌≡◌};
ghost use Rattle.seen_channels.specs.Tellings.{opposite};

/// Which way a PDU goes, as the host of the link sees it.
#[derive(Clone, Copy, Debug, PartialEq, Eq)]
pub enum Direction {
    /// From the host.
    Out,
    /// To the host.
    In,
}

impl Direction {
    /// The other direction.
    pub fn opposite(self) -> Direction
        ensures { result ≡ opposite self }
    {
        match self {
            Direction::Out => Direction::In,
            Direction::In => Direction::Out,
        }
    }
}
