//! Laws of both hosts on their links: that no request of the client is ignored.
#![tactic(auto)]

ghost use Rattle.request_laws.specs.AllSizes.{LinksGainAll, RunsGainAll};
ghost use Rattle.request_laws.specs.Losing.{LinksGainLess, RunsGainLess};
ghost use Rattle.request_laws.specs.AsTold.{RunsUseService};
ghost use Rattle.request_laws.specs.Alternating.{LinksAlternate};
ghost use Rattle.request_laws.specs.Behind.{NothingComesBehind};
ghost use Rattle.request_laws.specs.BothFed.{RequestsOfLinksAreHeard};
ghost use Rattle.request_laws.specs.Carried.{LinksAreCarried};
ghost use Rattle.request_laws.specs.Firsts.{FirstHostsAreHeard};
ghost use Rattle.request_laws.specs.GainsCarried.{GainsCarried};
ghost use Rattle.request_laws.specs.Granted.{RunsServeGranted};
ghost use Rattle.request_laws.specs.HandedUp.{ObjectsAreHandedUp};
ghost use Rattle.request_laws.specs.Joined.{JoinedAreTwined};
ghost use Rattle.request_laws.specs.LessHeard.{HeardRunsGainLess};
ghost use Rattle.request_laws.specs.Linked.{RunsAreLinked};
ghost use Rattle.request_laws.specs.MuxFed.{CarriedRequestsAreHeard};
ghost use Rattle.request_laws.specs.MuxPipes.{MultiplexersArePiped};
ghost use Rattle.request_laws.specs.ObjectPipes.{ChannelsOfObjectsArePipes};
ghost use Rattle.request_laws.specs.Paired.{PairedServersServe};
ghost use Rattle.request_laws.specs.Runs.{RunsAreFed, ServersServeInOrder};
ghost use Rattle.request_laws.specs.Scripts.{ScriptsLoseNothing};
ghost use Rattle.request_laws.specs.Spellable.{FramesAreSpellable};
ghost use Rattle.request_laws.specs.SpellableClients.{ClientFramesAreRead};
ghost use Rattle.request_laws.specs.SpellableServers.{ServerFramesAreSaid};
ghost use Rattle.request_laws.specs.Spelled.{RunsSpellPushed};
ghost use Rattle.request_laws.specs.TogetherHeard.{RunsServeHeard, RunsServeHeardGranted};
ghost use Rattle.request_laws.specs.Together.{RunsServeTogether};

/// Whatever happens to both hosts over all their links: no request is ignored, and all else holds that the laws of a server ask of what
/// may come; over L2CAP, where on each link what came to the one is a front of what went from the other at each moment, each link lies in
/// one push, the shelf tells no object of more than 16,777,215 octets, and the inbox grants all calls.
pub fn requests_of_links_are_heard()
    ensures { RequestsOfLinksAreHeard }
{}

/// So are both hosts to which nothing happened yet.
pub fn first_hosts_are_heard()
    ensures { FirstHostsAreHeard }
{}

/// Where what happened to the channels of both hosts on a link stands in one order, so does all that both hosts went through there.
pub fn joined_are_twined()
    ensures { JoinedAreTwined }
{}

/// At each moment of a run, wherever it broke off, all that the profile of each host went through stands in one order with what happened to
/// its channels.
pub fn runs_are_fed()
    ensures { RunsAreFed }
{}

/// So host b serves in order in each run over L2CAP, wherever it broke off: no request is ignored, where on each link what came to one host
/// is a front of what the channel of the other took, no object is too long, its inbox grants all calls, all that comes on its channels is handed up, and
/// its client asks for one channel of objects on each link.
pub fn servers_serve_in_order()
    ensures { ServersServeInOrder }
{}

/// On a link the SDUs that come to a server and to a client on the server's PSM are those that their channels handed up there, in order.
pub fn objects_are_handed_up()
    ensures { ObjectsAreHandedUp }
{}

/// And where both hosts' channels on each link are a pair, as they are in each run: where along
/// the turns of these pairs what came to one host on the channel of the object is a front of what the channel of the other took, each link
/// comes up where the client wants it, host b is never two turns of its link ahead, no object is too long, and the inbox grants
/// all calls.
pub fn paired_servers_serve()
    ensures { PairedServersServe }
{}

/// In each run, wherever it broke off, the links of both hosts go side by side: the n-th link of host a is the n-th of host b. It comes up where
/// the client wants it, no push begins on it, host b is never two turns of its link ahead, and on a link of which host a has not heard
/// nothing comes to it.
pub fn runs_are_linked()
    ensures { RunsAreLinked }
{}

/// On a link where one channel alone carries packets, nothing comes to a server once it was told that this channel is closed.
pub fn nothing_comes_behind()
    ensures { NothingComesBehind }
{}

/// Links of a host come up and go down in turn: it hears first that one comes up, then that it goes down, and so on.
pub fn links_alternate()
    ensures { LinksAlternate }
{}

/// In each run over L2CAP, wherever it broke off, the channels of the object are pipes along the pair of both hosts' channels on each link: at each
/// moment the requests that came are a front of those that the client's end of the channel took of its profile, and the responses that came
/// of those that the server's end took.
pub fn channels_of_objects_are_pipes()
    ensures { ChannelsOfObjectsArePipes }
{}

/// So in each run over L2CAP, wherever it broke off, host b serves in order and its inbox gained exactly what the capture spells: where the
/// shelf tells no object of more than 16,777,215 octets, and the inbox grants all calls, whatever else the shelf answers.
pub fn runs_serve_together()
    ensures { RunsServeTogether }
{}

/// In each run over RFCOMM whose words lose, cut, repeat and damage nothing, wherever it broke off, the channels of the multiplexers are pipes along the
/// pair of both hosts' channels on each link: at each moment the SDUs that came to the one on PSM 0x0003 are a front of those that the other's end took
/// of its profile.
pub fn multiplexers_are_piped()
    ensures { MultiplexersArePiped }
{}

/// On a link over RFCOMM, where the channels of the multiplexers were pipes so, each frame is read as it was sent, and nothing came to the server behind
/// the end of its channel: at each move of both hosts what came to the one is read as a front of the frames that the other's multiplexer sent. So
/// the laws on a client and a server over RFCOMM ask it of each push.
pub fn links_are_carried()
    ensures { LinksAreCarried }
{}

/// Whatever happens to both hosts over all their links over RFCOMM: no request is ignored, and all else holds that the laws of a server ask of what
/// may come; where on each link the channels of the multiplexers were pipes and nothing came behind their end, each link lies in one push, the shelf
/// tells no object of more than 4,294,967,295 octets, the client hears of the server's channel, the inbox grants all calls, each frame is read as it was
/// sent, and nothing comes over L2CAP.
pub fn carried_requests_are_heard()
    ensures { CarriedRequestsAreHeard }
{}

/// And in each run over L2CAP in which the inbox grants all calls, nothing is asked for but that the shelf tells no object that is longer.
pub fn runs_serve_granted()
    ensures { RunsServeGranted }
{}

/// A multiplexer of RFCOMM whose numbers fit the fields of its frames, of either side, that hears octets and is handed octets to send: each frame that
/// it says can be spelled, whatever it hears and when it closes (TS 07.10, 5.2.1; RFCOMM 1.2, 5.1).
pub fn frames_are_spellable()
    ensures { FramesAreSpellable }
{}

/// So each frame that a client over RFCOMM sends is read as it was sent, from a new client on, whatever it hears and does, push after push: where the
/// SDUs that it hears and what its shelf answers are octets (Object Push Profile 1.2, 4.3; RFCOMM 1.2, 5.1).
pub fn client_frames_are_read()
    ensures { ClientFramesAreRead }
{}

/// So the octets of what a server lends are those that spell it, from a new server on, whatever comes to it and goes: where the SDUs that come are octets
/// (Object Push Profile 1.2, 4.3; RFCOMM 1.2, 5.1).
pub fn server_frames_are_said()
    ensures { ServerFramesAreSaid }
{}

/// At each moment of each run over RFCOMM whose both hosts' channels are pairs that keep their order, wherever it broke off, the inbox of host b gained
/// exactly what the capture spells, where no request is ignored. What host b was told and sent stands in the order in which it moved, for a host hears a
/// PDU where it has said all.
pub fn inboxes_gain_carried()
    ensures { GainsCarried }
{}

/// In each run over RFCOMM whose words lose, cut, repeat and damage nothing, wherever it broke off, no request of the client is ignored, and host b's
/// inbox gained exactly what the capture spells. Nothing is asked of what both hosts hear: what comes up at either is what the other's channel took, so
/// all of it are octets, and of the service the client hears what the server's record names. Asked for is of the ports alone: the shelf gives octets and
/// tells no object of more than 4,294,967,295 octets, and the inbox grants all calls.
pub fn runs_serve_heard()
    ensures { RunsServeHeard }
{}

/// And in each such run in which the inbox grants all calls, that it does so is asked no more.
pub fn runs_serve_heard_granted()
    ensures { RunsServeHeardGranted }
{}

/// In each such run where calls of the inbox fail, but not for want of memory, it gained what the capture spells, in its order, but for one object at most for
/// each fault that its calls used up; and of each object all was gained with its last packet, or nothing: all exactly where success is said to that.
pub fn heard_runs_gain_less()
    ensures { HeardRunsGainLess }
{}

/// On all links of both hosts, over L2CAP, the inbox gained what the packets spell that came, of objects of any size up to 4,294,967,295 octets: where the
/// channels of the object were pipes and the inbox granted all calls.
pub fn links_gain_all()
    ensures { LinksGainAll }
{}

/// In each run over L2CAP, wherever it broke off, the inbox gained exactly what the capture spells, of objects of any size up to 4,294,967,295 octets, and
/// whether or not requests are ignored: where it granted all calls.
pub fn runs_gain_all()
    ensures { RunsGainAll }
{}

/// On all links of both hosts, over L2CAP, the inbox gained what the packets spell that came, but for one object at most for each fault that its calls used
/// up, of objects of any size up to 4,294,967,295 octets: where the channels of the object were pipes and the inbox did not lack memory. What is left out
/// is told by the packets at which a call failed; success is said to a PUT exactly where it stores an object.
pub fn links_gain_less()
    ensures { LinksGainLess }
{}

/// So it is in each run over L2CAP, wherever it broke off, of what the capture spells: where the inbox did not lack memory.
pub fn runs_gain_less()
    ensures { RunsGainLess }
{}

/// No word of a script over RFCOMM loses, cuts, repeats or damages a frame, nor do those of a run that keeps to it, wherever it broke off: a script with such
/// a word is no scenario's.
pub fn scripts_lose_nothing()
    ensures { ScriptsLoseNothing }
{}

/// In each run, over either transport and wherever it broke off, the objects that the capture spells to host b are what the shelf holds under names of the
/// scenario, in their order: each whole, and of each name in the list once at most. That is so where the shelf tells what it holds and the inbox does not
/// lack memory; over RFCOMM, where the words of the run lose, cut, repeat and damage nothing.
pub fn runs_spell_pushed()
    ensures { RunsSpellPushed }
{}

/// In each run, over either transport, wherever it broke off and whatever its ports answered: on each of its links host a asks for no channel, and opens, uses and
/// closes no data link connection, but as an answer of service discovery told it there before.
pub fn runs_use_service()
    ensures { RunsUseService }
{}
