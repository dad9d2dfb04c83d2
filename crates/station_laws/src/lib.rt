//! A host in code (`host_link`) is a station of the pure world (`world_model`): each of its calls is a step of the station, for
//! every machine above it. `Seen.IsStation` says how a host is seen as a station.
#![tactic(auto)]

ghost use Rattle.station_laws.specs.Laws.{AnswersAreHeard, BeginsAsFirst, CommandsAreOrders, CommandsGo, CommandsStop, LinksAreAsked, LinksAreEnded, MachinesChange, OctetsDepart, PdusGo, PiecesAreHeard, PiecesAreOrders, PiecesGo, PiecesStop, StartsAsFirst};
ghost use Rattle.station_laws.specs.WorldLaws.{EffortsHappen, OrdersHappen, WorldsAnswer};
ghost use Rattle.turn_laws.specs.world_model.specs.Machines.{Upper};

/// The packets of a host's commands and of the pieces of its PDUs are those of the orders of its station.
#[tactic(auto, using(crate::proofs::Packets::commands_are_orders, crate::proofs::Packets::pieces_are_orders))]
pub fn packets_are_orders()
    ensures commands { CommandsAreOrders }
    ensures pieces { PiecesAreOrders }
{}

/// Octets that are taken from a host are packets of its orders, the first ones first.
#[tactic(auto, using(crate::proofs::Departing::octets_depart))]
pub fn octets_depart()
    ensures { OctetsDepart }
{}

/// A host that is made is the first station, which puts out its first command.
pub fn hosts_begin_as_stations<S, G>()
    ensures begins { (U : Upper S G) → BeginsAsFirst U }
    ensures starts { (U : Upper S G) → StartsAsFirst U }
{}

/// What a controller answers is heard as the station hears it, with the same news and without a fault.
pub fn answers_are_heard<S, G>()
    ensures { (U : Upper S G) → AnswersAreHeard U }
{}

/// A piece of a PDU is heard as the station hears it, and completes the same PDU.
pub fn pieces_are_heard<S, G>()
    ensures { (U : Upper S G) → PiecesAreHeard U }
{}

/// What the machine above hears leaves its host as it was.
pub fn machines_change<S, G>()
    ensures { (U : Upper S G) → MachinesChange U }
{}

/// The pieces that a host puts out are put out by its station, one after the other.
pub fn pieces_go<S, G>()
    ensures { (U : Upper S G) → PiecesGo U }
{}

/// A PDU that a host takes is taken by its station, which puts out as many pieces of it.
pub fn pdus_go<S, G>()
    ensures { (U : Upper S G) → PdusGo U }
{}

/// The command that a host puts out is put out by its station.
pub fn commands_go<S, G>()
    ensures { (U : Upper S G) → CommandsGo U }
{}

/// A piece or a command that waits behind that waits for a buffer, an answer, or room.
#[tactic(auto, using(crate::proofs::Stopping::pieces_stop, crate::proofs::Stopping::commands_stop))]
pub fn hosts_put_all_out()
    ensures pieces { PiecesStop }
    ensures commands { CommandsStop }
{}

/// Host a that asks for a link asks as its station does, and the end of a link is asked for as the station asks for it.
pub fn links_are_asked_and_ended<S, G>()
    ensures asked { (U : Upper S G) → LinksAreAsked U }
    ensures ended { (U : Upper S G) → LinksAreEnded U }
{}

/// What comes into the hosts of the pure world, whatever happens in it, is what `answers_are_heard` and `pieces_are_heard` ask for.
pub fn worlds_answer<S, T, G, H>()
    ensures { (U : Upper S G) (V : Upper T H) → WorldsAnswer U V }
{}

/// The efforts of a host happen in its world, and so do the orders that move from it, one after the other.
pub fn hosts_happen<S, T, G, H>()
    ensures efforts { (U : Upper S G) (V : Upper T H) → EffortsHappen U V }
    ensures orders { (U : Upper S G) (V : Upper T H) → OrdersHappen U V }
{}
