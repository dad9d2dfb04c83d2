//! Identifiers of headers (IrOBEX 1.5, 2.1).

/// The name of an object.
pub const NAME: u8 = 0x01;

/// How many octets an object has.
pub const LENGTH: u8 = 0xC3;

/// Octets of an object, with more to come.
pub const BODY: u8 = 0x48;

/// The last octets of an object.
pub const END_OF_BODY: u8 = 0x49;

/// Single response mode (Generic Object Exchange Profile 2.1, 4.6).
pub const SINGLE_RESPONSE: u8 = 0x97;

/// Parameters of single response mode.
pub const SINGLE_RESPONSE_PARAMETERS: u8 = 0x98;

/// The value of the header that enables single response mode.
pub const ENABLED: u8 = 0x01;
