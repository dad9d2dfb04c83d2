//! What the functions of this crate come to.

ghost use Rattle.channel_model.specs.Examples.{AreAnswered};

/// Commands of a peer that can be worked out by hand, with their answers.
pub fn signalling_is_answered()
    ensures { AreAnswered }
{}
