//! What pieces give when they are joined.

/// Why pieces were dropped.
#[derive(Clone, Copy, Debug, PartialEq, Eq)]
pub enum DropReason {
    /// A continuation where no group is open.
    StrayContinuation,
    /// A start came before the group was whole. `Joined::unfinished` says so.
    Unfinished,
    /// A group longer than its PDU.
    Overrun,
    /// A PDU longer than the limit.
    AboveLimit,
    /// A start without the whole header of a PDU.
    ShortStart,
}

/// What a piece gave.
#[derive(Clone, Copy, Debug, PartialEq, Eq)]
pub enum Got<'a> {
    /// The channel identifier and the whole PDU, with its header.
    Pdu(u16, &'a [u8]),
    /// The group goes on.
    More,
    /// The piece and its group were dropped.
    Dropped(DropReason),
}

/// What a piece gave, and whether it left a group unfinished.
#[derive(Clone, Copy, Debug, PartialEq, Eq)]
pub struct Joined<'a> {
    /// Whether the piece was a start that came while a group was open: that group was dropped.
    pub unfinished: bool,
    pub got: Got<'a>,
}
