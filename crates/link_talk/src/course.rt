/// A request of OBEX, as a server hears it (IrOBEX 1.5, 3.1 and 3.4.3).
#[derive(Clone, Copy, Debug, PartialEq, Eq)]
pub enum Asked {
    /// A PUT: whether it is the final one, has a Name, and asks for single response mode.
    Put {
        last: bool,
        named: bool,
        single: bool,
    },
    /// Another packet.
    Other,
    /// One that it refuses.
    Refused,
}

/// How far an object is on a channel (IrOBEX 1.5, 3.4.3.7).
#[derive(Clone, Copy, Debug, PartialEq, Eq)]
pub enum Course {
    /// No object is under way.
    Resting,
    /// Its first PUT asked for single response mode.
    Offered,
    /// Each PUT is answered.
    Singly,
    /// Its PUTs are answered together.
    Together,
    /// One of them was refused: those behind it are passed over.
    Silent,
}
