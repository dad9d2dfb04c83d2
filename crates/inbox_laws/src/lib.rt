//! Laws of a server that keeps what its inbox is to answer.
#![tactic(auto)]

ghost use Rattle.inbox_laws.specs.Owned.{EnoughRunsAreEnough, GrantedRunsAreGranted, OwnRestsAreRests, OwnRunsAreRuns};
ghost use Rattle.inbox_laws.specs.Spending.{GivesWhatIsLeft, SpendsWhatIsGiven};
ghost use Rattle.inbox_laws.specs.Untold.{AnswersAloneDecide};

/// What happens to both hosts, where the server keeps the answers of its inbox from its first moment on and uses them up one by one, happens
/// where it is given them with each thing that it hears.
pub fn own_runs_are_runs()
    ensures { OwnRunsAreRuns }
{}

/// And the one world is at rest where the other is.
pub fn own_rests_are_rests()
    ensures { OwnRestsAreRests }
{}

/// Where all answers that it keeps are grants, it happens to a server whose inbox grants whatever it is asked.
pub fn granted_runs_are_granted()
    ensures { GrantedRunsAreGranted }
{}

/// And where none of them is want of memory, it happens to a server whose inbox does not lack memory.
pub fn enough_runs_are_enough()
    ensures { EnoughRunsAreEnough }
{}

/// Where a server is given all answers of its inbox with the first thing that it hears, and then what is left of them, its calls use up no more faults than
/// there are in that list.
pub fn spends_what_is_given()
    ensures { SpendsWhatIsGiven }
{}

/// And where none of those answers is want of memory, none that it is given is.
pub fn gives_what_is_left()
    ensures { GivesWhatIsLeft }
{}

/// What happens to both hosts happens as well where the inbox holds something else, or does not tell what it holds, if it answers the same: neither
/// host, nor anything on the air, is another then.
pub fn answers_alone_decide()
    ensures { AnswersAloneDecide }
{}
