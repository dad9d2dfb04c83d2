//! What options succeed.
#![tactic(auto)]

ghost use Rattle.accepting_laws.specs.Accepted.{FirstOptionsSucceed, WishesMeet};
ghost use Rattle.accepting_laws.specs.Anew.{NewSuccessesSuffice};
ghost use Rattle.accepting_laws.specs.First.{FirstOptionsAreAsked, FirstOptionsAreUnderWay};
ghost use Rattle.accepting_laws.specs.InTime.{OptionsInTimeSucceed};
ghost use Rattle.accepting_laws.specs.Together.{AllInTimeSucceed};

/// A host that has a channel that is not open yet, of whose options it heard no part, answers a request for the first options of a host that wishes the same with
/// success.
pub fn first_options_succeed()
    ensures { FirstOptionsSucceed }
{}

/// Both hosts of a scenario wish the same of each PSM, and what they wish can be accepted.
pub fn wishes_meet()
    ensures { WishesMeet }
{}

/// While its peer suggests no other options, a host asks for its first ones alone.
pub fn first_options_are_asked()
    ensures { FirstOptionsAreAsked }
{}

/// So each copy of a request for options that is under way from it to its peer asks for first ones, whatever the link loses, repeats and damages.
pub fn first_options_are_under_way()
    ensures { FirstOptionsAreUnderWay }
{}

/// Between two hosts that wish the same, and of which none suggested other options, such a request succeeds at each moment at which the channel that it names awaits options.
pub fn options_in_time_succeed()
    ensures { OptionsInTimeSucceed }
{}

/// Where each signalling PDU that comes in is one command, and each new request for options succeeds, each response to such a request that a host says is success.
pub fn new_successes_suffice()
    ensures { NewSuccessesSuffice }
{}

/// Two hosts that wish the same answer all requests for options with success where each that comes in, and is not the last one again, comes in time.
pub fn all_in_time_succeed()
    ensures { AllInTimeSucceed }
{}
