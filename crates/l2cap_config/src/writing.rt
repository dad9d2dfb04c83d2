//! Options as octets.

ghost use Rattle.std.specs.Prelude.{◌≡◌, ◌≤◌, ◌+◌, ◌++◌, length, drop};
ghost use Rattle.l2cap_config.specs.Items.{spelled};
ghost use Rattle.l2cap_config.specs.Writing.{mtu_items, mode_items, fcs_items, written, overwritten};

use crate::options::{ModeOption, Options};

/// Writes the MTU, the mode and the FCS option, of those that there are, from the front of `into`, and
/// answers how many octets they have. The octets behind them stay as they are. Unknown types are not
/// written, since they have no value.
pub fn put_options(options: &Options, into: &mut [u8]) -> usize
    requires { length (written options.now) ≤ length into.old }
    ensures count { result ≡ length (written options.now) }
    ensures octets { into.new ≡ written options.now ++ drop (length (written options.now)) into.old }
{
    let end = put_mtu(options.mtu, into);
    let end = put_mode(options.mode, end, into);
    put_fcs(options.fcs, end, into)
}

fn put_mtu(mtu: Option<u16>, into: &mut [u8]) -> usize
    requires { length (spelled (mtu_items mtu)) ≤ length into.old }
    ensures end { result ≡ length (spelled (mtu_items mtu)) }
    ensures octets { into.new ≡ overwritten 0 (spelled (mtu_items mtu)) into.old }
{
    let Some(mtu) = mtu else {
        return 0;
    };
    let [low, high] = mtu.to_le_bytes();
    put_octets(&[1, 2, low, high], 0, into)
}

fn put_mode(mode: Option<ModeOption>, at: usize, into: &mut [u8]) -> usize
    requires { at + length (spelled (mode_items mode)) ≤ length into.old }
    ensures end { result ≡ at + length (spelled (mode_items mode)) }
    ensures octets { into.new ≡ overwritten at (spelled (mode_items mode)) into.old }
{
    let Some(option) = mode else {
        return at;
    };
    let ModeOption {
        mode,
        window,
        tries,
        retransmit,
        monitor,
        mps,
    } = option;
    let [r0, r1] = retransmit.to_le_bytes();
    let [m0, m1] = monitor.to_le_bytes();
    let [p0, p1] = mps.to_le_bytes();
    put_octets(
        &[4, 9, mode, window, tries, r0, r1, m0, m1, p0, p1],
        at,
        into,
    )
}

fn put_fcs(fcs: Option<u8>, at: usize, into: &mut [u8]) -> usize
    requires { at + length (spelled (fcs_items fcs)) ≤ length into.old }
    ensures end { result ≡ at + length (spelled (fcs_items fcs)) }
    ensures octets { into.new ≡ overwritten at (spelled (fcs_items fcs)) into.old }
{
    let Some(fcs) = fcs else {
        return at;
    };
    put_octets(&[5, 1, fcs], at, into)
}

/// Writes octets from `at` on, and answers the place behind them.
fn put_octets(octets: &[u8], at: usize, into: &mut [u8]) -> usize
    requires { at + length octets.now ≤ length into.old }
    ensures end { result ≡ at + length octets.now }
    ensures octets { into.new ≡ overwritten at octets.now into.old }
{
    let end = at + octets.len();
    into[at..end].copy_from_slice(octets);
    end
}
