//! Laws of check words, for all octets.

ghost use Rattle.check_words.specs.Laws.{CheckWordsHold, TableIsRight, TablesBehindAreRight, RfcommTableIsRight, BurstsAreSeen, ChangedOctetsAreSeen, RfcommBurstsAreSeen, RfcommChangedOctetsAreSeen, TwoChangedOctetsMayPass, AreL2capValues, AreRfcommValues};

/// Octets that end in a check word leave nothing exactly where it is that of the octets before it.
pub fn check_words_hold()
    ensures { CheckWordsHold }
{}

/// Each value of the table is what the division of its octet leaves.
pub fn table_is_right()
    ensures { TableIsRight }
{}

/// Each value of the tables for octets with zero octets behind them is what the division leaves of
/// these.
pub fn tables_behind_are_right()
    ensures { TablesBehindAreRight }
{}

/// Each value of the table of RFCOMM is what the division of its octet leaves, and the value of the
/// standard's register after the octet's eight bits.
pub fn rfcomm_table_is_right()
    ensures { RfcommTableIsRight }
{}

/// A divisor with 1 at both ends sees each change within as many bits as its degree.
pub fn bursts_are_seen()
    ensures { BurstsAreSeen }
{}

/// The check word of L2CAP sees each change within two neighbouring octets.
pub fn changed_octets_are_seen()
    ensures { ChangedOctetsAreSeen }
{}

/// The check word of RFCOMM sees each change within eight neighbouring bits, and so each changed
/// octet, but not each change of two neighbouring octets.
pub fn rfcomm_changes_are_seen()
    ensures bursts { RfcommBurstsAreSeen }
    ensures octets { RfcommChangedOctetsAreSeen }
    ensures not_all { TwoChangedOctetsMayPass }
{}

/// The definitions give the check words that were worked out elsewhere.
pub fn worked_values()
    ensures l2cap { AreL2capValues }
    ensures rfcomm { AreRfcommValues }
{}
