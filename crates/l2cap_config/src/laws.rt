//! Laws of options and their octets, for all options.

ghost use Rattle.l2cap_config.specs.Laws.{WrittenIsRead, TypesAreListedOnce};

/// Options without unknown types that were written are read again as they were.
pub fn written_is_read()
    ensures { WrittenIsRead }
{}

/// Of the unknown options in a list each type is listed once, in the order of their first appearance.
pub fn types_are_listed_once()
    ensures { TypesAreListedOnce }
{}
