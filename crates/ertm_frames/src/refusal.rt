/// Why a PDU is no frame. Where several hold, the first of them is answered.
#[derive(Clone, Copy, Debug, PartialEq, Eq)]
pub enum FrameRefusal {
    /// The PDU has below eight octets, or its length field is not its length less four.
    Short,
    /// The check word does not hold.
    BadFcs,
    /// An S-frame has a reserved bit, or octets.
    ReservedSet,
    /// The start of an SDU has not the two octets of its length.
    BadStart,
    /// There are more octets than the receiver takes.
    AboveMps,
}
