//! How many passes two ends of an enhanced channel need over a link that loses, repeats and damages (Bluetooth Core
//! Specification 5.1, Volume 3 Part A, section 8.6).
#![tactic(auto)]

ghost use Rattle.recovery_laws.specs.Requests.{RequestsRecover};
ghost use Rattle.recovery_laws.specs.Words.{EndsFallSilent, NewRecovers, WordsGoOn, LessMayBePlanned, RunsAreBounded, HarmIsSmall, IdleIsDone, ClosingsArePaid};

/// Two ends that give their frames one after the other come to have none to give, so that every word can be completed.
pub fn ends_fall_silent()
    ensures { EndsFallSilent }
{}

/// Two new ends need two passes for each segment. Each pass that finds something to do lowers the number of passes that
/// are left, a word that went wrong raises it by four windows and four at most, and no other word raises it. Where less is
/// put than was planned, it may be less.
pub fn passes_are_counted()
    ensures new { NewRecovers }
    ensures kept { WordsGoOn }
    ensures less { LessMayBePlanned }
{}

/// Of all passes of a run no more find something to do than two for each segment, and four windows and four for each word
/// that went wrong, which are 256 at most; and one that finds nothing to do is of two ends that are done.
pub fn runs_recover()
    ensures bounded { RunsAreBounded }
    ensures small { HarmIsSmall }
    ensures done { IdleIsDone }
{}

/// An end closes for want of tries alone, and only after as many words that went wrong as it has tries.
pub fn closings_are_paid()
    ensures { ClosingsArePaid }
{}

/// Requests that wait for their answers, on any channel: each copy or answer that comes, and each firing of the timer where
/// nothing is on its way, lowers a number, which one word that went wrong raises by two at most, and a timer out of turn by
/// two for each copy that it puts.
pub fn requests_recover()
    ensures { RequestsRecover }
{}
