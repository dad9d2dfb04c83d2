//! Laws of a host above its line.

ghost use Rattle.host_laws.specs.Answered.{ClientsAreAnswered};
ghost use Rattle.host_laws.specs.Openings.{ClientsBeginWhatIsTold};
ghost use Rattle.host_laws.specs.ShelfAnswers.{ClientsAreGivenObjects};
ghost use Rattle.host_laws.specs.Armed.{ArmedIsRead, ServersAreArmed};
ghost use Rattle.host_laws.specs.AsTold.{ClientsGoAsTold};
ghost use Rattle.host_laws.specs.Calls.{HostsAsk};
ghost use Rattle.host_laws.specs.Carriers.{HostsGainByCarriers};
ghost use Rattle.host_laws.specs.Calm.{CalmHostsMove, HostsTalkInTurns};
ghost use Rattle.host_laws.specs.ClientCalls.{ClientsAskInOrder, ClientsAskOnce};
ghost use Rattle.host_laws.specs.Free.{ClientsFirePlainly, HostsHoldBackNothing, ServersFirePlainly};
ghost use Rattle.host_laws.specs.Gaining.{HostsGainTalk};
ghost use Rattle.host_laws.specs.GainingOver.{HostsGainOverLinks, HostsReadOverLinks};
ghost use Rattle.host_laws.specs.InOrder.{ClientsCallInOrder, ServersAreServedInOrder, ServersAskNothing};
ghost use Rattle.host_laws.specs.Fed.{HostsTalkFed};
ghost use Rattle.host_laws.specs.Keeping.{ClientsKeepOn, LossesAreTold, ServersAskForNothing, ServersAwaitNothing, ServersKeepOn, ServersSendAsTheyLend};
ghost use Rattle.host_laws.specs.Leaving.{LeavesAtLosses};
ghost use Rattle.host_laws.specs.Lives.{HostsRun};
ghost use Rattle.host_laws.specs.Memory.{ClientsHaveMemory};
ghost use Rattle.host_laws.specs.OneCarrier.{OneCarrierGains};
ghost use Rattle.host_laws.specs.OneOnLinks.{ServersCarryAlone};
ghost use Rattle.host_laws.specs.Onward.{ClientsGoOnward};
ghost use Rattle.host_laws.specs.Pushing.{ClientsArePushed, ClientsOpen};
ghost use Rattle.host_laws.specs.OverLinks.{AllLinksAreActs, HostsTalkOverLinks};
ghost use Rattle.host_laws.specs.Read.{SaidIsRead};
ghost use Rattle.host_laws.specs.Searching.{ClientsAwaitServices, HostsAskAsTheyStep};
ghost use Rattle.host_laws.specs.SearchSent.{SearchesAreSent};
ghost use Rattle.host_laws.specs.SearchOrder.{CancelsInOrder, ClientsSearchInOrder, ClientsSearchWithMemory, HostsSearchWell, LinksBeginSearches, ProfilesSearchInOrder};
ghost use Rattle.host_laws.specs.Seen.{OwnTalkMoves};
ghost use Rattle.host_laws.specs.Serving.{HostsGain, ServersAreServed};
ghost use Rattle.host_laws.specs.Spoken.{ObjectsMove};
ghost use Rattle.host_laws.specs.Steady.{SteadyFirePlainly};
ghost use Rattle.host_laws.specs.Told.{AllEndsAreTold, AllSdusAreTold, ChecksAreRead, ProfilesAreTold};
ghost use Rattle.host_laws.specs.Turning.{LinksAreActs, TurnsAreActs};
ghost use Rattle.host_laws.specs.Woven.{HostsTalkWoven};
ghost use Rattle.shelf_model.specs.host_model.specs.Profiles.{Profile};
ghost use Rattle.shelf_model.specs.world_model.specs.Machines.{Upper};

/// With each step of its profile a client or a server asks for one thing of its channels at most.
pub fn hosts_ask()
    ensures { HostsAsk }
{}

/// From its first moment on, over all its links, the channels of a host are those of a run on each, of what it heard and
/// said and of what its profile asked for; and its profile was told all that they tell, in its order, and where the link
/// came up and went down. So all laws on channels hold of every host.
pub fn hosts_run<P>()
    ensures { (A : Profile P) → HostsRun A }
{}

/// What a profile is told on a link is read off its host's own talk: each SDU is of a channel that is read, none comes
/// behind the end of its channel, and a channel whose end was told is one that its host has closed.
pub fn profiles_are_told<P>()
    ensures { (A : Profile P) → ProfilesAreTold A }
{}

/// The SDUs that a profile is told of a channel are those that its host's own talk brings. Where the channel was
/// closed by its machine, the PDU for which it was may bring one more.
pub fn all_sdus_are_told<P>()
    ensures { (A : Profile P) → AllSdusAreTold A }
{}

/// Where a host's own talk has a channel that has ended for it, its profile was told the end.
pub fn all_ends_are_told<P>()
    ensures { (A : Profile P) → AllEndsAreTold A }
{}

/// A host looks for a check word at an endpoint exactly where its own talk says that there is one: until the answer to its
/// request for the end of the channel came, also where it had closed it before.
pub fn checks_are_read<P>()
    ensures { (A : Profile P) → ChecksAreRead A }
{}

/// The timer of a host is armed exactly where its own talk says that something waits, where its profile waits for services
/// as the talk has it.
pub fn armed_is_read<P>()
    ensures { (A : Profile P) → ArmedIsRead A }
{}

/// The timer of a server is armed exactly where its own talk says that something waits, where none of its SDUs is a request
/// for services.
pub fn servers_are_armed()
    ensures { ServersAreArmed }
{}

/// What a host was told and said in a run of turns is what it heard and said by itself, one thing after the other: so all
/// laws of one host hold of both hosts of a world.
pub fn turns_are_acts<S, T, G, H>()
    ensures { (U : Upper S G) (V : Upper T H) → TurnsAreActs U V }
{}

/// And while a link is up, since it came up: then a host hears PDUs, and its timer fires, where it has said all.
pub fn links_are_acts<S, T, G, H>()
    ensures { (U : Upper S G) (V : Upper T H) → LinksAreActs U V }
{}

/// Where a host hears things in quiet, one command at a time, its own talk is what moved on its link, but for the requests
/// that it gave up, which nobody hears.
pub fn own_talk_moves()
    ensures { OwnTalkMoves }
{}

/// Where no command waits to be given, and no channel whose end was asked for as often as may be asks for its options more often, a firing
/// says what waits to be given behind it.
pub fn steady_fire_plainly()
    ensures { SteadyFirePlainly }
{}

/// So it is of every host that is calm on its link, whatever its profile: its own talk is what it heard and said there.
pub fn calm_hosts_move<P>()
    ensures { (A : Profile P) → CalmHostsMove A }
{}

/// Each PDU that a client or a server says is read as what its channels gave, whatever it heard of octets and whatever its ports answered.
pub fn said_is_read()
    ensures { SaidIsRead }
{}

/// On a link of a run of turns, with one command in each PDU, the own talk of a host is what it was told and said since the
/// link came up, but for what it gave up, wherever it has said all.
pub fn hosts_talk_in_turns<P>()
    ensures { (A : Profile P) → HostsTalkInTurns A }
{}

/// The server of a host and its inbox are what they are of what happened to them over all links: what its profile was told,
/// and what of its SDUs went out.
pub fn servers_are_served()
    ensures { ServersAreServed }
{}

/// The client of a host is what it is of what happened to it over all links: pushes that begin, what its profile was told, what it
/// was asked for, and what of its SDUs went.
pub fn clients_are_pushed()
    ensures { ClientsArePushed }
{}

/// The channels that the profile of a client asks for over all its links are those that its client opens, in their order; and in
/// each push over L2CAP these are two at most: that to the service records and then another, which is not RFCOMM's.
pub fn clients_open()
    ensures { ClientsOpen }
{}

/// The inbox of a host gains exactly the objects that the packets spell which its server was told, in the order of their last
/// packets, where no call of the inbox fails, no request is ignored, and at most one transport has an object under way.
pub fn hosts_gain()
    ensures { HostsGain }
{}

/// The objects of a link on which one channel alone carries packets, over L2CAP or over RFCOMM, are those of that channel,
/// for every talk.
pub fn one_carrier_gains()
    ensures { OneCarrierGains }
{}

/// Where one channel carries packets on each link, over L2CAP, the inbox of a host gains exactly the objects that its own
/// talk spells over all its links, in their order, where no call of the inbox fails and no request is ignored.
pub fn hosts_gain_talk()
    ensures { HostsGainTalk }
{}

/// What a host was told and said in a run of turns is what it heard and said by itself, over all its links; and while a link is
/// up it hears PDUs, and its timer fires, where it has said all.
pub fn all_links_are_acts<S, T, G, H>()
    ensures { (U : Upper S G) (V : Upper T H) → AllLinksAreActs U V }
{}

/// A host of a run of turns lives so that on each of its links its own talk is what moved there, but for what it gave up, and
/// behind it what it let wait and did not say before the link was gone.
pub fn hosts_talk_over_links<P>()
    ensures { (A : Profile P) → HostsTalkOverLinks A }
{}

/// And so that what happened on its links, what its profile asked for and what that was told are in one order.
pub fn hosts_talk_woven<P>()
    ensures { (A : Profile P) → HostsTalkWoven A }
{}

/// And all that its profile went through on them stands in the same order: so what was heard and asked for on a channel is
/// tied to when it was.
pub fn hosts_talk_fed<P>()
    ensures { (A : Profile P) → HostsTalkFed A }
{}

/// The objects of a host's own talk are those of what moved, whatever the host gave up and let wait at the end, where it asks for no
/// channel and its peer gives each of its endpoints to one channel.
pub fn objects_move()
    ensures { ObjectsMove }
{}

/// What a server's host heard over its links spells what the PDUs spell that moved on them, link after link, whether or not its server heeded all
/// of it: over L2CAP, where the host asks for no channel, one channel alone carries packets on each link, and its peer gives each endpoint once.
pub fn hosts_read_over_links()
    ensures { HostsReadOverLinks }
{}

/// At each moment of a run of turns the inbox of a host has gained exactly the objects that the PDUs spell which moved on its links, link
/// after link, where one channel carries packets on each link, over L2CAP.
pub fn hosts_gain_over_links()
    ensures { HostsGainOverLinks }
{}

/// The inbox of a host gains exactly the objects that the PDUs spell which moved on its links, link after link, over L2CAP or over RFCOMM
/// on each: where one channel alone carries packets there, and the SDUs that its server was told and that went are those of the talk.
pub fn hosts_gain_by_carriers()
    ensures { HostsGainByCarriers }
{}

/// A server that sends what it lends, and does nothing else, asks on none of its links for a channel, for its peer's features, or for the end of a channel.
pub fn servers_ask_for_nothing()
    ensures { ServersAskForNothing }
{}

/// A server asks for no channel.
pub fn servers_ask_nothing()
    ensures { ServersAskNothing }
{}

/// A server whose client asks for one channel of objects on each link, and not for RFCOMM's, asks for none itself, has an endpoint of its own
/// for each of its client's, and on each link one channel carries packets, over L2CAP.
pub fn servers_are_served_in_order()
    ensures { ServersAreServedInOrder }
{}

/// Of a client that asks for its next channel when no other one is only asked for, and for one besides that of service discovery, one request
/// after the other moves on each link.
pub fn clients_call_in_order()
    ensures { ClientsCallInOrder }
{}

/// A client asks for its next channel when no other one is only asked for: for that of service discovery, and for one besides on each link. Over
/// RFCOMM that is the channel of its multiplexer, and over L2CAP it is not RFCOMM's. And so few are its requests that their identifiers do not come round.
pub fn clients_ask_in_order()
    ensures { ClientsAskInOrder }
{}

/// So one request after the other moves on each link of a client that is gentle there, however often its timer repeats them.
pub fn clients_ask_once()
    ensures { ClientsAskOnce }
{}

/// Whatever a host hears and whatever its ports answer, where it says nothing next its channels have nothing to give: neither the bound on
/// what it says nor a number that is no octet ever holds a PDU back, where each PDU on the signalling channel has one command at most, in
/// octets.
pub fn hosts_hold_back_nothing()
    ensures { HostsHoldBackNothing }
{}

/// A server ends no channel of its own accord: so each firing of it says what waits behind it, where no command waited before.
pub fn servers_fire_plainly()
    ensures { ServersFirePlainly }
{}

/// A client asks for the options of a channel that it leaves as often as for its end: so each firing of it says what waits behind it, where no command
/// waited before.
pub fn clients_fire_plainly()
    ensures { ClientsFirePlainly }
{}

/// Of each request that a host gives up it is told, but for one for a channel that it takes back: so where no loss arose and none was taken back, its
/// own talk has no request that it gave up.
pub fn losses_are_told()
    ensures { LossesAreTold }
{}

/// A server asks its channels for nothing but to send what it lends.
pub fn servers_send_as_they_lend()
    ensures { ServersSendAsTheyLend }
{}

/// What a server gives up is the end of a channel that it closed, and then it ends its link: where it does not, its own talk has no request that it
/// gave up.
pub fn servers_keep_on()
    ensures { ServersKeepOn }
{}

/// No SDU that a server lends is a request for services: it waits for none, and by its own talk none waits.
pub fn servers_await_nothing()
    ensures { ServersAwaitNothing }
{}

/// A client that is told that a request for its channel was given as often as may be, or that the features never came, or that a channel is closed
/// which it closed with a cause, has nothing left but its link; and it ends that, whatever waits in its channels.
pub fn clients_leave_at_losses()
    ensures { LeavesAtLosses }
{}

/// A client that gave up a request of its link, or took one back, ends its link, or has none: where a push of it goes on over its link, its own talk there
/// has no request that it gave up.
pub fn clients_keep_on()
    ensures { ClientsKeepOn }
{}

/// A client whose push is on its link stays on it, whatever happens there; and it asks that no link be made, and that its link end where its push waits for
/// that alone.
pub fn clients_go_onward()
    ensures { ClientsGoOnward }
{}

/// A client fails only where its shelf lacks memory: where that never answers so, whatever else the client goes through from its first moment on, it has not
/// failed.
pub fn clients_have_memory()
    ensures { ClientsHaveMemory }
{}

/// Whatever its shelf answers, and wherever it begins: the names under which a client pushes have at most 100 UTF-16 units, and each part of an object that it goes
/// on with has as many octets as its next PUT; any other answer is a fault of the shelf. An object is as long as the shelf told.
pub fn clients_are_answered()
    ensures { ClientsAreAnswered }
{}

/// Where its shelf tells what it holds, each part that a client goes on with is of the object that it pushes, from where the body of its next PUT begins,
/// and that object is as long as the shelf told: whatever else its shelf answers, which it takes for a fault.
pub fn clients_are_given_objects()
    ensures { ClientsAreGivenObjects }
{}

/// A client begins to push objects that it was told to push, in their order, each at most as often as it was told.
pub fn clients_begin_what_is_told()
    ensures { ClientsBeginWhatIsTold }
{}

/// With each step of its push a client asks its channels for what the step says and for nothing else, and a server has the SDUs sent that it lends.
pub fn hosts_ask_as_they_step()
    ensures { HostsAskAsTheyStep }
{}

/// A client waits for service discovery exactly where its own talk on the link says that a request for services has no reply: where its channels wait for
/// nothing, a push goes on over the link, and it did not end its search with a request that waits.
pub fn clients_await_services()
    ensures { ClientsAwaitServices }
{}

/// The question of a push is a new one until its channel of service discovery is there, and no request of it waits where the client is to close that
/// channel, whatever it hears and does, but for a push that is cancelled: that one closes the channel with its next step.
pub fn clients_search_in_order()
    ensures { ClientsSearchInOrder }
{}

/// So it is of a client's profile, whatever it goes through but that its push is cancelled.
pub fn profiles_search_in_order()
    ensures { ProfilesSearchInOrder }
{}

/// So it is behind a push that is cancelled, too, where its channels have no PDU, it has memory and its SDU was sent.
pub fn cancels_in_order()
    ensures { CancelsInOrder }
{}

/// A client has memory while it searches, whatever it hears and does, where each push begins behind the end of the one before.
pub fn clients_search_with_memory()
    ensures { ClientsSearchWithMemory }
{}

/// Each host of a client searches in order, and has memory while it does, in whatever it hears and says.
pub fn hosts_search_well()
    ensures { HostsSearchWell }
{}

/// A link that comes up for a push begins its search, with a new question, or is left at once.
pub fn links_begin_searches()
    ensures { LinksBeginSearches }
{}

/// A server whose client asks on each link for service discovery and for one channel besides: there one channel alone carries packets, over L2CAP
/// that of objects, over RFCOMM that of the multiplexer.
pub fn servers_carry_alone()
    ensures { ServersCarryAlone }
{}

/// Where the channels of a client have nothing to give, its request for services was sent: none is held back by its channel, and no step of it is under way.
pub fn searches_are_sent()
    ensures { SearchesAreSent }
{}

/// On a link that came up for its push a client goes by what service discovery told it there: it asks for no channel, and opens, uses and closes no data link
/// connection, but as an answer told it before, however often its timer repeats its requests.
pub fn clients_go_as_told()
    ensures { ClientsGoAsTold }
{}
