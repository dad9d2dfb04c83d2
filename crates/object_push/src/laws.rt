//! What a scenario that was pushed comes to, as its capture says.

ghost use Rattle.object_push.specs.Gaining.{RunsGain};
ghost use Rattle.object_push.specs.Keeping.{RunsKeep};
ghost use Rattle.object_push.specs.Streaming.{RunsStream};
ghost use Rattle.object_push.specs.Told.{RunsTell};

/// What is so of each run of a scenario over L2CAP, over its ports and its capture alone: what the inbox gained and how many objects the report
/// counts, the accounts of both hosts, the pushes and their outcomes, and that the air obeyed the script; where it stopped short, as far as it
/// came. The inbox tells what it holds; what is asked of ports besides is said of each of these.
pub fn runs_gain()
    ensures { RunsGain }
{
    scenario_play::plays_gain();
}

/// What is so of each run of a scenario, over L2CAP or over RFCOMM, over its capture alone and whatever its ports answer: the buffers of both
/// controllers and the windows of both hosts at each moment, the pushes and their outcomes, and that the air obeyed the script; where it
/// stopped short, as far as it came.
pub fn runs_keep()
    ensures { RunsKeep }
{
    scenario_play::plays_keep();
}

/// What is so besides of each run of a scenario over RFCOMM, with an inbox that tells what it holds: where the inbox granted all calls, as it did where no
/// count of it rose, no request was ignored, the inbox gained exactly what the capture spells, and the report counts these objects; where it stopped short,
/// as far as it came.
pub fn runs_stream()
    ensures { RunsStream }
{
    scenario_play::plays_stream();
}

/// What each run of a scenario comes to, over L2CAP or over RFCOMM, over its ports and its capture alone: what the trace gained, which can be read in one
/// way; what the inbox gained, exactly what the capture spells where neither count of it rose, and how much of it was counted; what both hosts kept to and
/// held at most; what was reported; and where it stopped short, why, and the same as far as it came. No object may be pending in the inbox at first.
pub fn runs_tell()
    ensures { RunsTell }
{
    scenario_play::plays_keep();
}
