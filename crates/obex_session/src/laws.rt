//! Laws of sessions and of what packets store, for every list of them. They speak of no call: the
//! contracts of the calls tie these to the same definitions.

ghost use Rattle.obex_session.specs.AnySize.{LeavesOnlyTheBound, SpellsAnySize};
ghost use Rattle.obex_session.specs.Exchanges.{ResponsesAreRead, SuccessIsStored};
ghost use Rattle.obex_session.specs.Laws.{NoRuleFails, StoresWhatIsSpelled};
ghost use Rattle.obex_session.specs.Modes.{RepliesKeepModes};
ghost use Rattle.obex_session.specs.Naming.{NamesHaveUnits};
ghost use Rattle.obex_session.specs.ObjectPuts.{PutsInOrder, SpellsTheObject};
ghost use Rattle.obex_session.specs.Pairs.{PairsHearFronts, PairsMeanWell, ResponsesAreAwaited};
ghost use Rattle.obex_session.specs.Pushes.{FrontsArePushed};
ghost use Rattle.obex_session.specs.PutPackets.{SpellsWhatIsPut};
ghost use Rattle.obex_session.specs.Readable.{RepliesAreRead};
ghost use Rattle.obex_session.specs.Replied.{RepliesAreDue};
ghost use Rattle.obex_session.specs.Tried.{InboxIsCalledAnew, InboxIsCalledInRuns};

/// Where the inbox never failed, the objects that the packets spell were stored.
pub fn spelled_is_stored()
    ensures { StoresWhatIsSpelled }
{}

/// No rule answers D0: it is left for an inbox that failed.
pub fn no_rule_fails()
    ensures { NoRuleFails }
{}

/// The PUT packets of an object spell it, however its body is cut.
pub fn put_is_spelled()
    ensures { SpellsWhatIsPut }
{}

/// Packet for packet, what a client's session puts of an object are that object's packets, with the
/// octets of the shelf.
pub fn puts_are_in_order()
    ensures { PutsInOrder }
{}

/// All packets that a client's session puts of an object spell it.
pub fn whole_put_is_the_object()
    ensures { SpellsTheObject }
{}

/// A client's session takes a response of a server by its code, and never as none.
pub fn responses_are_read()
    ensures { ResponsesAreRead }
{}

/// An object more is stored exactly where success is said to a PUT, and that one is final.
pub fn success_is_stored()
    ensures { SuccessIsStored }
{}

/// Whatever front of a push a server heard, it spells the pushed object once or nothing.
pub fn fronts_are_pushed()
    ensures { FrontsArePushed }
{}

/// Two sessions over a pipe: the client is never answered badly, and where it takes the success of
/// its final PUT, the server has stored its object.
pub fn pairs_mean_well()
    ensures { PairsMeanWell }
{}

/// No response comes to a client that awaits none, whenever it is cancelled, nor success to one that has more PUTs of its object to send.
pub fn responses_are_awaited()
    ensures { ResponsesAreAwaited }
{}

/// What the server heard is a front of what the client asked: CONNECT, PUTs of its object in order, and no PUT more. So the server stores that
/// object once or nothing, and a client that is done has had it stored.
pub fn pairs_hear_fronts()
    ensures { PairsHearFronts }
{}

/// The calls that a session makes of its inbox, over any list of packets and whatever the inbox answers: each packet makes those
/// of its place in its run, up to the first that fails. A Name begins the object, each body is appended, the final PUT commits it,
/// and what ends a run without an object aborts what is under way, as the end of the link does. A packet at which a call failed
/// counts as refused: a new run begins behind it, as of a session that heard nothing.
pub fn inbox_is_called_up_to_faults()
    ensures always { InboxIsCalledInRuns }
    ensures anew { InboxIsCalledAnew }
{}

/// A session replies to each packet, over any list of them and whatever its inbox answers, by the packet's place in its run: D0
/// where a call failed, else A0 to CONNECT, DISCONNECT and ABORT, D1 to what is not implemented, C0 to what is refused as a packet,
/// and to a PUT 90, A0 where it stores its object, or C0 or CD by the first rule that is broken. Where no single response mode is
/// offered that is the reply, octet for octet; where it is, a packet may be passed over in silence.
pub fn replies_are_due()
    ensures { RepliesAreDue }
{}

/// What a session says to a packet, whatever that is and whatever the inbox answers, is nothing, or a response that a client can read which
/// awaits one of its kind: to CONNECT where the packet begins as one, else to any other request.
pub fn replies_are_read()
    ensures { RepliesAreRead }
{}

/// So it is with single response mode, octet for octet: a run is in the mode where the session offers it and the first PUT of the run
/// wishes it. That PUT is answered with the confirmation, those that go on behind it are heard in silence, and a refusal and the
/// final PUT are answered. Behind a refusal that the final PUT does not bring, PUTs without a Name are passed over in silence, up to
/// and with a final one.
pub fn replies_keep_modes()
    ensures { RepliesKeepModes }
{}

/// Each UTF-16 unit of a name that is a text stands in two octets, as the laws on what packets spell ask of it.
pub fn names_have_units()
    ensures { NamesHaveUnits }
{}

/// All packets that a client's session puts of an object spell it whatever its size, the bound of 16,777,215 octets left aside; and
/// where an object keeps the bound, PUTs that spell it so spell it by all the rules.
pub fn any_size_is_spelled()
    ensures spelled { SpellsAnySize }
    ensures bounded { LeavesOnlyTheBound }
{}
