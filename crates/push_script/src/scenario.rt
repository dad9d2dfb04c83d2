//! A scenario: the settings, the objects that are pushed, and what happens in the air.

ghost use Rattle.std.specs.Prelude.{◌≤◌, length, Some};
ghost use Rattle.std.specs.List.{AllByRecursion};
ghost use Rattle.push_script.specs.Props.{names_once, runs_once, borne_once};
ghost use Rattle.push_script.specs.Names.{IsName};
ghost use Rattle.push_script.specs.Runs.{IsRun, IsBorne};

use crate::names::Names;
use crate::runs::Runs;
use bt_base::Settings;

/// A scenario. It is one that a text can state, always: each number is within its range, and over
/// RFCOMM no word loses, changes or repeats a frame.
#[derive(Drop)]
pub struct Scenario {
    /// What both hosts are set to.
    pub settings: Settings,
    /// The length of an ACL packet that a controller takes, in octets.
    pub acl_length: u16,
    /// How many ACL packets a controller holds.
    pub acl_count: u16,
    /// How many octets move between a host and its controller at a time.
    pub chunk: u16,
    /// The names of the objects that are pushed, in order; there is at least one.
    pub names: Names,
    /// The words of the radio script.
    pub script: Runs,
    pub ghost acl_length_low: { 27 ≤ acl_length },
    pub ghost acl_length_high: { acl_length ≤ 1021 },
    pub ghost acl_count_low: { 1 ≤ acl_count },
    pub ghost acl_count_high: { acl_count ≤ 64 },
    pub ghost chunk_low: { 1 ≤ chunk },
    pub ghost chunk_high: { chunk ≤ 4096 },
    pub ghost some: { 1 ≤ length names },
    pub ghost few: { length names ≤ 64 },
    pub ghost named: { AllByRecursion IsName names } by { names_once names },
    pub ghost spelled: { AllByRecursion IsRun script } by { runs_once script },
    pub ghost borne: { AllByRecursion (IsBorne (Some settings.transport)) script } by { borne_once (Some settings.transport) script },
}
