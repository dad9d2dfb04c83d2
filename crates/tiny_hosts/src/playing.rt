//! Scripts that are played over the counter and the echo.

ghost use Rattle.std.specs.Prelude.{IfOk};
ghost use Rattle.radio_world.specs.capture.specs.Air.{words_of};
ghost use Rattle.tiny_hosts.specs.Playing.{IsPlayed};

use crate::counter::Counter;
use crate::echo::Echo;
use crate::tiny_host::TinyHost;
use bt_base::Sink;
use push_script::Scenario;
use radio_world::{World, WorldFault};
use std::alloc::Global;

/// The world of a counter and an echo.
type TinyWorld = World<TinyHost<Counter>, TinyHost<Echo>>;

/// Plays a scenario whose objects host a, a counter, pushes to host b, an echo: each push is a count to three. What moves stands
/// in the trace.
///
/// It is a run of the pure world in which the words of the script were turned. It refuses as the calls of the world do.
pub fn play<T: Sink>(
    alloc: Global,
    scenario: &Scenario,
    trace: &mut T,
) -> Result<TinyWorld, WorldFault>
    ensures { IfOk result (λ world. IsPlayed scenario.now.acl_length scenario.now.acl_count scenario.now.names (words_of scenario.now.script) (T.content trace.old) (T.content trace.new) world) }
{
    let mut world = TinyWorld::new::<(), ()>(alloc, scenario)?;
    let (mut shelf, mut inbox) = ((), ());
    world.start(trace, &mut shelf, &mut inbox)?;
    world.turn_all(&scenario.script, trace, &mut shelf, &mut inbox)?;
    world.finish(trace, &shelf)?;
    Ok(world)
}
