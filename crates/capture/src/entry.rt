use crate::flow::Flow;
use h4_framing::Unit;
use push_terms::{Outcome, Side, Word};

/// What happened: an entry of a capture, whose packet is lent.
#[derive(Clone, Copy, Debug)]
pub enum Entry<'a> {
    /// A packet moved out of a host or into it.
    Moved {
        side: Side,
        flow: Flow,
        unit: Unit<'a>,
    },
    /// A word of the radio script did something. Words count from 1.
    Acted {
        ordinal: u64,
        word: Word,
    },
    /// A push began. Pushes count from 1.
    Begun(u16),
    /// A push ended.
    Ended(u16, Outcome),
}
