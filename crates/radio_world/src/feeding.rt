//! Packets handed to a host.

ghost use Rattle.std.specs.Prelude.{◌≡◌, ◌≤◌, [], OnErr, OnOk};
ghost use Rattle.radio_world.specs.Hosts.{Comes, ReactsTo};

use crate::host::Host;
use bt_base::NoMemory;

/// Hands the octets of a packet to a host, at most `chunk` at a time: the host hears it. It needs a
/// packet that a controller may let come.
pub(crate) fn hand_over<P, H: Host<P>>(
    host: &mut H,
    octets: &[u8],
    chunk: usize,
    port: &mut P,
) -> Result<(), NoMemory>
    requires some { 1 ≤ chunk }
    requires none_held { H.held host.old ≡ [] }
    requires comes { Comes H.side (H.station host.old port.old) octets.now }
    requires sound { H.is_sound host.old port.old }
    ensures hears { OnOk result (ReactsTo H.machine H.side H.answers octets.now (H.station host.old port.old) (H.station host.new port.new) port.old port.new (H.held host.new ≡ []) (H.is_sound host.new port.new)) }
    ensures lacked { OnErr result (H.lacked port.old port.new) }
{
    let mut rest = octets;
    while !rest.is_empty() {
        let (piece, more) = rest.split_at(chunk.min(rest.len()));
        host.feed(piece, port)?;
        rest = more;
    }
    Ok(())
}
