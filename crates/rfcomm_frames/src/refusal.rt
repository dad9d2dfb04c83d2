/// Why octets are no frame, or begin no control message. Where several hold, the first of them is
/// answered.
#[derive(Clone, Copy, Debug, PartialEq, Eq)]
pub enum MuxRefusal {
    /// A frame has below four octets; a control message has no whole type and length field.
    Short,
    /// The extension bit of the address, or of the type of a control message, is clear: more octets
    /// of it would follow, which RFCOMM does not have.
    BadExtension,
    /// The control field is that of no frame of RFCOMM.
    BadControl,
    /// The length field is not that of the octets: it states more or fewer than there are, more
    /// than none in a frame that carries none, or another number than a control message of that
    /// type has.
    LengthMismatch,
    /// The check word does not hold.
    BadFcs,
}
