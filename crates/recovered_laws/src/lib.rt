//! What the retransmission machines of the channels of two hosts pay, on a link that loses, repeats and damages.
#![tactic(auto)]

ghost use Rattle.recovered_laws.specs.Calm.{CalmIsQuiet, SettledUpsetNoMore};
ghost use Rattle.recovered_laws.specs.Owing.{OwesOnlyWhatItHeard};
ghost use Rattle.recovered_laws.specs.Paid.{MachinesArePaid};
ghost use Rattle.recovered_laws.specs.TwoEnds.{MachinesAreTwoEnds};

/// A link that is calm is quiet: of all turns of two hosts no more disturb than upset.
pub fn calm_is_quiet()
    ensures { CalmIsQuiet }
{}

/// Whatever a link loses, repeats and damages: while neither host has closed an enhanced channel that both have, each of its machines gave a frame for the
/// t-th time only behind t - 1 turns that upset, and closes only for want of tries, and only behind as many of them as it has tries.
pub fn machines_are_paid()
    ensures { MachinesArePaid }
{}

/// Where each timer that fires on a quiet link does so when its host has no frame to give and the other one owes no reply, no more turns upset than disturb.
pub fn settled_upset_no_more()
    ensures { SettledUpsetNoMore }
{}

/// Whatever a link loses, repeats and damages: while both hosts have an enhanced channel open, its machines are two ends that went through no more than one deed
/// for each turn of the hosts: one gives its next frame, its timer fires, or it takes an SDU; or a frame is handed over, lost or repeated.
pub fn machines_are_two_ends()
    ensures { MachinesAreTwoEnds }
{}

/// What a host does without a PDU has no machine of it owe a reply that owed none; and one of which no channel has anything to give owes none.
pub fn owes_only_what_it_heard()
    ensures { OwesOnlyWhatItHeard }
{}
