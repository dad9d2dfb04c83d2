//! What ports were when they began to be watched.

use std::marker::Brand;

/// What the ports of a run were at its beginning. Proofs alone see it: the call that begins to watch them picks it.
pub trait Past {
    ghost use Rattle.watched_ports.specs.Pasts.{SinkPast, ShelfPast, InboxPast};

    /// The sink.
    ghost sink: { SinkPast };

    /// The shelf.
    ghost shelf: { ShelfPast };

    /// The inbox.
    ghost inbox: { InboxPast };
}

impl Past for Brand {
    ghost use Rattle.watched_ports.specs.Pasts.{no_sink, no_shelf, no_inbox};

    ghost sink = { no_sink };

    ghost shelf = { no_shelf };

    ghost inbox = { no_inbox };
}
