/// Where a thing is that is asked for one time.
#[derive(Clone, Copy, Debug, PartialEq, Eq)]
pub enum Point {
    /// It is to be asked for.
    Due,
    /// It was asked for, and what comes of it is awaited.
    Asked,
}

/// Where a push is. Each step awaits the end of the one before.
#[derive(Clone, Copy, Debug, PartialEq, Eq)]
pub enum Stage {
    /// No push was begun, or the last one has ended.
    Rest,
    /// The link is made.
    Link(Point),
    /// The channel to the peer's service records is made.
    SearchChannel(Point),
    /// The service is asked for.
    Search,
    /// That channel is closed.
    SearchEnd(Point),
    /// The peer's features are asked for.
    Features(Point),
    /// The channel that carries the object is made.
    ObjectChannel(Point),
    /// Requests and their responses pass on it.
    Object,
    /// It is closed.
    ObjectEnd(Point),
    /// The link is broken.
    LinkEnd(Point),
    /// No link is there, and the end of the push is to be told.
    Over,
}

/// How far client and server are with each other (IrOBEX 1.5, 3.4).
#[derive(Clone, Copy, Debug, PartialEq, Eq)]
pub enum Contact {
    /// CONNECT was not answered with success.
    Unmet,
    /// It was.
    Met,
    /// DISCONNECT was sent.
    Left,
    /// The multiplexer is being closed.
    Closing,
}
