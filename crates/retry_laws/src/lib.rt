//! Laws of what a basic channel loses: how often a host sends its request there again, against what the link does.
#![tactic(auto)]

ghost use Rattle.retry_laws.specs.Counted.{LossesArePaid, SdusAreCounted, UnansweredArePaid};

/// Whatever a link loses, repeats and damages: over a basic channel that two hosts have, and for whose end neither asked, each SDU that the channel of one took came up at the other, is
/// under way, waits, or was lost by a turn of its own.
pub fn sdus_are_counted()
    ensures { SdusAreCounted }
{}

/// So of both ways together no more SDUs are missing than turns of the link disturb.
pub fn losses_are_paid()
    ensures { LossesArePaid }
{}

/// So a request to which no answer came, where each one that came was answered, was sent no more often than turns disturbed, besides what is on its way still.
pub fn unanswered_are_paid()
    ensures { UnansweredArePaid }
{}
