//! Why parameters are refused.

/// What is wrong with the parameters of a command or an event. Where several could be given, the
/// one listed first is.
#[derive(Clone, Copy, Debug, PartialEq, Eq)]
pub enum HciRefusal {
    /// Fewer octets than the row of the table has.
    ShortParams,
    /// More octets than the row of the table has.
    LongParams,
    /// A connection handle above 0x0EFF.
    BadHandle,
    /// A value that the row does not allow.
    BadValue,
}
