//! Laws of a client of Object Push, for every list of what may happen to it from a begin on.

ghost use Rattle.push_laws.specs.Cancelling.{CancelsUntilAllIsSent};
ghost use Rattle.push_laws.specs.Exchanges.{SendsBehindResponses};
ghost use Rattle.push_laws.specs.Opening.{OpensTheServerChannel, OpensTheTarget, OpensTwoAtMost};
ghost use Rattle.push_laws.specs.Parties.{PushesLeaveAlike};
ghost use Rattle.push_laws.specs.Sending.{NothingIsCancelledLate, SendsOnePush, SpellsWhatIsPushed};
ghost use Rattle.push_laws.specs.Success.{DoneExactly};

/// From a begin to the next one a client sends nothing, or one CONNECT, the PUTs that spell its object or a front of them,
/// ABORT and DISCONNECT, over L2CAP and over RFCOMM, whatever it hears. The body is what the shelf answered, in one pass.
/// Where all PUTs were sent, the outcome is neither `cancelled` nor a fault of the shelf, and where they were not, it is never `done`.
/// ABORT is sent for these two causes alone, and where one of them stopped the push behind a PUT, ahead of DISCONNECT.
pub fn sends_one_push()
    ensures { SendsOnePush }
{}

/// Where the shelf has the object and answers with its octets, each front of what is sent in a push spells the object once
/// or nothing, and what was sent of a push that is done spells it.
pub fn spells_what_is_pushed()
    ensures { SpellsWhatIsPushed }
{}

/// Once the final PUT was sent and no cause is known, the push may not be cancelled, and its outcome is never `cancelled`.
pub fn nothing_is_cancelled_late()
    ensures { NothingIsCancelledLate }
{}

/// Each channel that a client opens is the one to the service records or the one of the target of the answer that it heard
/// there in this push, in this order: over L2CAP the PSM that the target names, behind a question for the peer's features,
/// and over RFCOMM that of the multiplexer. No channel is opened on a number that no answer named.
pub fn opens_the_target()
    ensures { OpensTheTarget }
{}

/// Over L2CAP a client opens in one push at most two channels: that to the service records, and behind it another, which is not
/// RFCOMM's.
pub fn opens_two_at_most()
    ensures { OpensTwoAtMost }
{}

/// Over RFCOMM the multiplexer of a client that is on the channel of its object is for the server channel that the target of the
/// answer names: its DLCI is twice that.
pub fn opens_the_server_channel()
    ensures { OpensTheServerChannel }
{}

/// A push is done exactly where success to its final PUT is heard, which was sent to its last octet, and no cause came
/// before it: over L2CAP the SDU is that response, and over RFCOMM it is whole with the octets that an SDU brings. No
/// response to the final PUT lets a client go on.
pub fn done_exactly()
    ensures { DoneExactly }
{}

/// A client sends nothing while the response to what it sent before is due: over L2CAP that is the next SDU on the channel of
/// the object, and over RFCOMM an SDU came at least. PUTs of single response mode of which more follow have none.
pub fn sends_behind_responses()
    ensures { SendsBehindResponses }
{}

/// Behind a push over L2CAP a client is as it was in its transport, its maximum and its wish for single response mode, and its channels
/// had room: so it may begin the next one.
pub fn pushes_leave_alike()
    ensures { PushesLeaveAlike }
{}

/// A push that is under way without a cause may be cancelled until its client has sent CONNECT and all its PUTs, whatever it hears.
pub fn cancels_until_all_is_sent()
    ensures { CancelsUntilAllIsSent }
{}
