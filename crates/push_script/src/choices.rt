//! The choices that a line states by a word.

ghost use Rattle.std.specs.Prelude.{◌≡◌};
ghost use Rattle.push_script.specs.Choices.{transport_of, serves_of, switch_of};

use bt_base::{Serves, Transport};

/// A transport.
pub(crate) fn transport_of(text: &str) -> Option<Transport>
    ensures { result ≡ transport_of text.now }
{
    if text == "l2cap" {
        Some(Transport::L2cap)
    } else if text == "rfcomm" {
        Some(Transport::Rfcomm)
    } else {
        None
    }
}

/// The transports that a server offers.
pub(crate) fn serves_of(text: &str) -> Option<Serves>
    ensures { result ≡ serves_of text.now }
{
    if text == "both" {
        Some(Serves::Both)
    } else if text == "l2cap" {
        Some(Serves::L2cap)
    } else if text == "rfcomm" {
        Some(Serves::Rfcomm)
    } else {
        None
    }
}

/// Whether something is on.
pub(crate) fn switch_of(text: &str) -> Option<bool>
    ensures { result ≡ switch_of text.now }
{
    if text == "on" {
        Some(true)
    } else if text == "off" {
        Some(false)
    } else {
        None
    }
}
