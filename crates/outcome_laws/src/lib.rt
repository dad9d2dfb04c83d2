//! Laws of why the pushes of a client over any controller end: of what happens to the client itself, whatever that is.
#![tactic(auto)]

ghost use Rattle.outcome_laws.specs.BroughtAbout.{OutcomesAreBroughtAbout};
ghost use Rattle.outcome_laws.specs.FirstCause.{OutcomesAreFirstCauses};
ghost use Rattle.outcome_laws.specs.SaidWith.{OutcomesAreSaid};

/// The outcome of a push is the first cause since it began of all that happened to the client: each thing shows one outcome, with its reason, or none, by a table over what
/// the pure client knows at that moment (`push_model`, `Shown`), of what the PDUs of its units bring and of its shelf, timer, begins and cancels, which no unit tells. Why a
/// channel closed is what the channel told.
pub fn outcomes_are_first_causes()
    ensures { OutcomesAreFirstCauses }
{}

/// Whatever comes to a client, and whatever it does: one thing since its push began brought the outcome about. One that is done or refused, or found no service, a piece of
/// a PDU; one whose link was lost, a Disconnection Complete with another reason than that the peer ended it; one that is cancelled, that it was cancelled; one at its limit,
/// a piece of a PDU or a firing; one that its peer closed, a piece of a PDU or that the peer ended the link; and one whose peer is at fault of HCI, a Connection Complete with
/// that status, of another layer a piece of a PDU, or, of L2CAP, a firing.
pub fn outcomes_are_brought_about()
    ensures { OutcomesAreBroughtAbout }
{}

/// And where it hears one thing at a time: of a push that is done or refused, or found no service, one piece of a PDU that came in since it was begun made that PDU
/// whole, and by the talk of its link one of the SDUs that had come in on the channel of that PDU says so: a response with the code of that outcome, success of one that
/// is done, or, of no service, an SDU of service discovery.
pub fn outcomes_are_said()
    ensures { OutcomesAreSaid }
{}
