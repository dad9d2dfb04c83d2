//! Laws of pieces and groups, for every PDU. They speak of the definitions alone, which the
//! contracts of the cutter and the joiner cite.

ghost use Rattle.acl_fragments.specs.Laws.{WholeFrames, OnePdu, AnsweredIsGiven, GivenIsAnswered};

/// The pieces into which PDUs are cut give the same PDUs back through the groups that they form.
pub fn whole_frames()
    ensures same { WholeFrames }
    ensures one { OnePdu }
{}

/// Pieces are answered with exactly the PDUs that their groups give, each with the piece that makes
/// its group whole.
pub fn answers_of_groups()
    ensures given { AnsweredIsGiven }
    ensures answered { GivenIsAnswered }
{}
