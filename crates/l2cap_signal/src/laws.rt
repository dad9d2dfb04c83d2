//! Laws of the commands and their octets, for every payload.

ghost use Rattle.l2cap_signal.specs.Grammar.{AnswersAreRight, AnswersAreOnly, WrittenIsRead};

/// The answers to a payload are those of the commands in it, refusals included, and no other list is.
pub fn answers_are_exact()
    ensures right { AnswersAreRight }
    ensures only { AnswersAreOnly }
{}

/// Commands that were written into one payload of at most 672 octets are read again as they were.
pub fn written_is_read()
    ensures { WrittenIsRead }
{}
