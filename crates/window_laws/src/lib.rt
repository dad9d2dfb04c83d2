//! Laws of the windows of enhanced channels, in numbers of I-frames that never wrap.
#![tactic(auto)]

ghost use Rattle.window_laws.specs.Hosts.{HostsHoldAsTaken};
ghost use Rattle.window_laws.specs.Machines.{MachinesAreNumbered};
ghost use Rattle.window_laws.specs.Numbers.{NumbersAreRead};
ghost use Rattle.window_laws.specs.Pairs.{BothHoldAbsolutely, BothTakeAll};
ghost use Rattle.window_laws.specs.Runs.{RunsHoldAbsolutely};

/// Of the frames that passed on a channel as many I-frames went out as are picked of them: each next new one, and none that goes out again. And where no
/// ReqSeq was refused, as many are acknowledged as the ReqSeq values stand for.
pub fn numbers_are_read()
    ensures { NumbersAreRead }
{}

/// Whatever comes in: while a retransmission machine is open, it holds the I-frames that went out and are not acknowledged, no more than its window, and counts
/// from the first of them; and it expects the first one that did not come in.
pub fn machines_are_numbered()
    ensures { MachinesAreNumbered }
{}

/// Whatever happens to a host and whatever comes in: at each moment, of the I-frames that went out on a channel that its talk has in enhanced mode, no more are
/// unacknowledged than the window that it states itself, where a ReqSeq that is refused acknowledges none. So it is also of a channel that was closed.
pub fn hosts_hold_as_taken()
    ensures { HostsHoldAsTaken }
{}

/// Whatever a link loses, repeats and damages: no ReqSeq that comes in on an enhanced channel is refused, at either host, also while the host has closed the
/// channel: each stands for the number that was sent.
pub fn both_take_all()
    ensures { BothTakeAll }
{}

/// So at each moment, of the I-frames that either host gave on an enhanced channel, no more are unacknowledged than the lesser of the windows that both state,
/// and none is acknowledged that was not given.
pub fn both_hold_absolutely()
    ensures { BothHoldAbsolutely }
{}

/// At each moment of each run, whatever its ports answered and wherever it broke off, and on each link to its end: of the I-frames that either host has out on an
/// enhanced channel no more are unacknowledged than the window that both state, in numbers that never wrap, and none is acknowledged that did not go out. So it is
/// also on channels that were closed, and where requests were given up.
pub fn runs_hold_absolutely()
    ensures { RunsHoldAbsolutely }
{}
