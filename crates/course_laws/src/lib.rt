//! How many steps a push takes.
#![tactic(auto)]

ghost use Rattle.course_laws.specs.Left.{StepsAreFew, BeginsWithFew};

/// A push over L2CAP takes thirteen steps at most, and one more for each octet of its object, besides questions for the service that are sent anew: each step lowers
/// the number of those that are left, and nothing else raises it.
pub fn steps_are_few()
    ensures few { StepsAreFew }
    ensures begins { BeginsWithFew }
{}
