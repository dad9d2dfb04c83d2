//! Laws of which faults no push blames its peer for, and that none lacks a service that it has, over the capture of a run alone, whatever shelf and inbox answer and whatever the script says.
#![tactic(auto)]

ghost use Rattle.blame_laws.specs.AskedOnce.{RunsAskOnce};
ghost use Rattle.blame_laws.specs.Blamed.{RunsSparePeers};

/// No push of a run ends with its peer at fault of service discovery: each reply that comes to host a there is the one that host b gives to its request, a whole
/// answer. That is so over either transport, whatever a link loses, repeats, cuts and damages (Core 5.1, Volume 3 Part B, 4.2 and 4.7). And over L2CAP none
/// ends with it at fault of RFCOMM, since no multiplexer is there (RFCOMM 1.2, 5). Nor does one end as `no-service` where the record of host b names a way over the
/// transport of the scenario: that reply names it (Object Push Profile 1.2, 5).
pub fn runs_spare_peers()
    ensures { RunsSparePeers }
{}

/// While host a of a run seeks the service of a push, the question that it asks, or will ask next, is the first of its query, at each moment: no part of an
/// answer was joined, and none is asked for behind one. So the answer has one part, however often it is asked for, and nothing but its timer has host a ask
/// again (Core 5.1, Volume 3 Part B, 4.2 and 4.7).
pub fn runs_ask_once()
    ensures { RunsAskOnce }
{}
