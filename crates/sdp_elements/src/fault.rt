//! Why octets are no data element.

/// Why octets are refused. The parts of an element are judged from the front inwards, and at one
/// part first its header, then its depth and then its lengths.
#[derive(Clone, Copy, Debug, PartialEq, Eq)]
pub enum SdpRefusal {
    /// The header has a type that is reserved, or a size that its type does not have.
    BadHeader = 1,
    /// The input ends within the outermost element.
    Short = 2,
    /// More than eight sequences or alternatives stand in each other.
    TooDeep = 3,
    /// An identifier has another size than two, four or sixteen octets.
    BadUuidSize = 4,
    /// A part passes the end of the element that holds it.
    LengthMismatch = 5,
}
