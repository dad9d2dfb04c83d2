//! Laws of records. Each is the contract of a function that does nothing.

ghost use Rattle.tagged_entries.specs.Records.{LeastIsLeast, EachIsRead};

/// No record that octets begin is shorter than their least length.
pub fn least_is_least()
    ensures { LeastIsLeast }
{}

/// Each list of octets is a capture, or is refused somewhere.
pub fn each_is_read()
    ensures { EachIsRead }
{}
