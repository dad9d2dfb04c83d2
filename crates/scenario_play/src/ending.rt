//! What a scenario that was played comes to, as its capture says.

ghost use Rattle.scenario_play.specs.BufferPeaks.{BufferPeaksAreTold};
ghost use Rattle.scenario_play.specs.Ending.{PlaysBreakOff, PlaysEnd, PlaysServe, WantsAreTold};
ghost use Rattle.scenario_play.specs.Gaining.{PlaysGain, PlaysKeep};
ghost use Rattle.scenario_play.specs.Doing.{PlaysStoreDone};
ghost use Rattle.scenario_play.specs.Losing.{PlaysGainLess};
ghost use Rattle.scenario_play.specs.PeakBounds.{PeaksAreBounded};
ghost use Rattle.scenario_play.specs.Pushed.{PlaysSpellPushed};
ghost use Rattle.scenario_play.specs.Services.{PlaysKeepService};
ghost use Rattle.scenario_play.specs.Solvent.{PlaysStaySolvent};
ghost use Rattle.scenario_play.specs.Streaming.{PlaysStream};
ghost use Rattle.scenario_play.specs.WindowPeaks.{WindowPeaksAreTold};

/// What is so of every scenario that was played over L2CAP, over its capture alone: what the inbox gained, the accounts of both hosts, the
/// pushes and how they ended, and that the air obeyed the script; where host b serves.
pub fn plays_end()
    ensures { PlaysEnd }
{}

/// What is so of every scenario that broke off over L2CAP, over its capture so far alone: what the inbox gained by then, the buffers, the
/// pushes, honest controllers, and that each entry keeps to the script; where host b is orderly, and the inbox did not lack memory.
pub fn plays_break_off()
    ensures { PlaysBreakOff }
{}

/// Where neither count of the inbox rose over L2CAP, the inbox granted all calls of a scenario that was played or broke off: so host b serves
/// in order and its inbox gained exactly what the capture spells, where no object that is pushed has more than 16,777,215 octets.
pub fn plays_serve()
    ensures { PlaysServe }
{}

/// A scenario of at most 2^32 lines, with a trace that is told, wants memory only before anything happened, where a port lacked some, or
/// where its capture so far is crowded.
pub fn wants_are_told()
    ensures { WantsAreTold }
{}

/// What is so of every scenario that was played, over L2CAP or over RFCOMM, to its end or as far as it came, over its capture alone and whatever
/// ports answer: the buffers of both controllers and the windows of both hosts at each moment, also in numbers of I-frames that never wrap, honest controllers, the pushes and their
/// outcomes, none as closed by the peer while fewer words of the script are adverse than the hosts try; at its end the air obeyed the script, and as far as it came each entry keeps to the script.
pub fn plays_keep()
    ensures { PlaysKeep }
{
    parting_laws::few_words_part_none();
}

/// What is so of every scenario that was played over L2CAP, to its end or as far as it came, over its capture alone: all that `plays_keep` says.
/// Where the inbox grants all calls, as it does where no count of it rose, it gained exactly what the capture spells, of objects of any size. And where
/// besides no object has more than 16,777,215 octets, host b serves in order, and so is all that `plays_end` and `plays_break_off` say.
pub fn plays_gain()
    ensures { PlaysGain }
{
    plays_keep();
}

/// What is so of every scenario that was played over RFCOMM, to its end or as far as it came, over its capture alone: all that `plays_keep` says. And where
/// the inbox grants all calls, as it does where no count of it rose, no request is ignored, and the inbox gained exactly what the capture spells, of objects
/// of any size.
pub fn plays_stream()
    ensures { PlaysStream }
{
    plays_keep();
}

/// Where the inbox of a played scenario never lacked memory, it gained the objects that the capture spells, in their order, but for as many at most as its
/// count of faults rose by: over L2CAP or over RFCOMM, to the end or as far as it came.
pub fn plays_gain_less()
    ensures { PlaysGainLess }
{}

/// Where the inbox of a scenario that was played over L2CAP never lacked memory, and its shelf tells what it holds: one list of marks says which of the objects that the packets spell
/// the inbox gained. Where a push ends that is done, what they spell is what they spelled before that push was begun, and one object more, which is marked and is the shelf's under the name of that push; to
/// the end or as far as it came.
pub fn plays_store_done()
    ensures { PlaysStoreDone }
{}

/// At each moment of the capture of every scenario that was played, over L2CAP or over RFCOMM, to its end or as far as it came, and whatever ports answer:
/// the credits that either host holds are a whole number that is not below nothing.
pub fn plays_stay_solvent()
    ensures { PlaysStaySolvent }
{}

/// What the capture of a scenario that was played spells to host b are objects that its shelf holds under names of the scenario, in their order: each whole,
/// and of each name in the list once at most, where the shelf tells what it holds. So it is over L2CAP and over RFCOMM, to the end or as far as it came.
pub fn plays_spell_pushed()
    ensures { PlaysSpellPushed }
{}

/// The windows that a played scenario reports are at most what both hosts state. And no host had more frames
/// unacknowledged on a channel that it had not closed, wherever the run was at rest, as the capture has it (Core 5.1, Volume 3 Part A, 5.4 and 8.6).
pub fn peaks_are_bounded()
    ensures { PeaksAreBounded }
{}

/// The greatest numbers of packets that a played scenario reports as outstanding are those of its capture, up to 65,535.
pub fn buffer_peaks_are_told()
    ensures { BufferPeaksAreTold }
{}

/// On each of its links in every scenario that was played, over L2CAP or over RFCOMM, to its end or as far as it came, and whatever ports answer: host a asks for
/// no channel, and opens, uses and closes no data link connection, but as an answer of service discovery told it there before; and both hosts accept enhanced mode
/// alone of a channel that carries objects over L2CAP.
pub fn plays_keep_service()
    ensures { PlaysKeepService }
{}

/// No window that a played scenario reports is above the one that both hosts state; and by its capture no host had more frames unacknowledged on a channel
/// that it had not closed, as each word acted and at the end.
pub fn window_peaks_are_told()
    ensures { WindowPeaksAreTold }
{}
