//! Where the radio has room for what comes out of a host, whatever the machines and whatever their ports answer: so it wants memory
//! only for frames that wait.
#![tactic(auto)]

ghost use Rattle.room_laws.specs.Rooms.{FewAreOwed, RoomIsLeft};
ghost use Rattle.rest_laws.specs.world_model.specs.Machines.{Upper};

/// Where every packet was given back, and its host heard so, few answers are owed. That stays so when an order moves out of a host,
/// and nothing is handed over then.
pub fn room_is_left<S, T, G, H>()
    ensures few { (U : Upper S G) (V : Upper T H) → FewAreOwed U V }
    ensures room { (U : Upper S G) (V : Upper T H) → RoomIsLeft U V }
{}
