//! Laws of want of memory in a world.

ghost use Rattle.radio_world.specs.BufferPeaks.{BufferPeaksAreSeen};
ghost use Rattle.radio_world.specs.Crowds.{OverrunsAreCrowded, ScriptsAreCounted, WantsAreTold};

use crate::host::Host;

/// Where a world of two such hosts wants memory for the air, its capture so far is crowded.
pub fn overruns_are_crowded<P, A: Host<P>, Q, B: Host<Q>>()
    ensures { OverrunsAreCrowded A.machine B.machine A.answers B.answers }
{}

/// The words of a script of at most 2^32 lines can be counted.
pub fn scripts_are_counted()
    ensures { ScriptsAreCounted }
{}

/// So a new world that plays such a script, with a trace that is told, wants memory only where a port lacked some, or where
/// the capture so far is crowded.
pub fn wants_are_told<P, A: Host<P>, Q, B: Host<Q>>()
    ensures { WantsAreTold A.machine B.machine A.answers B.answers A.lacked B.lacked }
{}

/// The greatest numbers of outstanding packets that a world of two such hosts notes are those of its capture, where they are orderly.
pub fn buffer_peaks_are_seen<P, A: Host<P>, Q, B: Host<Q>>()
    ensures { BufferPeaksAreSeen A.machine B.machine }
{}
