//! With which thing that happens to a client the outcome of its push comes about, exactly.
#![tactic(auto)]

ghost use Rattle.coming_laws.specs.AddingUp.{OutcomesAddUp};
ghost use Rattle.coming_laws.specs.ComingAbout.{OutcomesComeAbout};

/// The outcome of a client with one thing more that happens to it is a function of what that is and of the client as it stands. An outcome stays until a push begins;
/// with that there is none, or the fault of a shelf that does not tell the object's size. Where there is none, it is what the thing shows: of what the host tells its
/// client, one after the other, the first that ends a push by the table of the client (`push_model`, `Shown`). Where that shows none either, it is the fault of a
/// shelf that fails as the client is asked for its next step, or none.
pub fn outcomes_add_up()
    ensures { OutcomesAddUp }
{}

/// So a push has an outcome exactly where one thing since it began, or its begin, showed that, ahead of which it had none. The link is lost, or the peer ended it,
/// exactly where Disconnection Complete comes for a link that came up since the push began; HCI is to blame exactly where Connection Complete says so, which the
/// host awaited, and no link came up since; a push is cancelled exactly where it is given up while it may be. It is done, refused or without service exactly where
/// a piece of a PDU makes one whole that brings an SDU, by the talk of its link, which says so to the client as it then stands: of one that is done, success to its final
/// PUT, which went to its last octet. And its shelf failed exactly where that did not tell the size, or failed for the next PUT.
pub fn outcomes_come_about()
    ensures { OutcomesComeAbout }
{}
