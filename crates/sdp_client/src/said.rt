//! What a reply says, lent from its octets.

ghost use Rattle.std.specs.Prelude.{◌≡◌, ◌≤◌, length};

/// A part of an answer. It lies in the reply. A part without octets is the last.
#[derive(Clone, Copy, Debug)]
pub struct Part<'a> {
    pub octets: &'a [u8],
    /// The continuation state behind it, none where it is the last.
    pub continuation: &'a [u8],
    pub ghost fits: { length continuation.now ≤ 16 },
    pub ghost last: { length octets.now ≡ 0 → length continuation.now ≡ 0 },
}

/// What a reply says.
#[derive(Clone, Copy, Debug)]
pub enum Said<'a> {
    Part(Part<'a>),
    Failed(u16),
    /// It is no reply to a search for attributes.
    Nothing,
}
