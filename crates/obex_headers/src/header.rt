//! Headers as they lie in a packet.

/// A header of a packet (IrOBEX 1.5, 2.1). The two high bits of `id` name the form of the value.
#[derive(Clone, Copy, Debug)]
pub struct Header<'a> {
    pub id: u8,
    pub value: HeaderValue<'a>,
}

/// The value of a header, in one of the four forms.
#[derive(Clone, Copy, Debug)]
pub enum HeaderValue<'a> {
    /// Identifiers 00 to 3F: nothing, or UTF-16 units, the high octet first, ended by a zero unit.
    Text(&'a [u8]),
    /// Identifiers 40 to 7F: octets.
    Octets(&'a [u8]),
    /// Identifiers 80 to BF: one octet.
    One(u8),
    /// Identifiers C0 to FF: four octets, the highest first.
    Four(u32),
}
