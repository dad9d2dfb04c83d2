//! How a wish and the options of the other side meet.

ghost use Rattle.std.specs.Prelude.{◌≡◌};
ghost use Rattle.l2cap_config.specs.declared.wish.Mode.TheVariants.{Enhanced};
ghost use Rattle.l2cap_config.specs.Agreement.{mode_number, own_mode, only_mode, only_mtu, answered_mode, answered_values, answered, bounded, requested_mode, requested, keeps_mode, settled, basic_mode, sent_mps, sent_window, agreed};

use crate::options::{ConfigRefusal, ModeOption, Options};
use crate::wish::{Agreed, Mode, Wish};

const DEFAULT_MTU: u16 = 672;

const LEAST_MTU: u16 = 48;

const GREATEST_WINDOW: u8 = 63;

const SUGGESTED_WINDOW: u8 = 10;

const LEAST_MPS: u16 = 8;

const SUGGESTED_MPS: u16 = 48;

const GREATEST_MPS: u16 = 1010;

/// The times of an enhanced channel, in milliseconds.
const RETRANSMISSION_TIME: u16 = 2000;

const MONITOR_TIME: u16 = 12000;

/// What is answered to the options of a configuration request.
#[derive(Debug, Drop)]
pub enum ConfigAnswer {
    /// Success, with the options of the response.
    Accept(Options),
    /// Unacceptable, why, and the options that would do.
    Unacceptable(ConfigRefusal, Options),
    /// There are unknown options that are no hints.
    Unknown,
}

/// What follows from a configuration response.
#[derive(Debug, Drop)]
pub enum Settled {
    /// The request was accepted.
    Accepted,
    /// The options of the next request.
    Again(Options),
    /// The answer is still to come.
    Wait,
    /// There can be no agreement.
    Never,
}

/// The answer to the options of a peer's configuration request, by the first row that holds:
///
/// - an unknown option that is no hint: `Unknown`;
/// - a mode other than the wished one: `BadMode`, with the own mode option;
/// - an MTU below 48: `BadMtu`, with MTU 48;
/// - in enhanced mode a window of 0 or above 63: `BadWindow`, with window 10;
/// - in enhanced mode an MPS below 8: `BadMps`, with MPS 48;
/// - else `Accept`, in enhanced mode with a mode option.
pub fn answer(wish: &Wish, options: &Options) -> ConfigAnswer
    ensures { result ≡ answered wish.now options.now }
{
    if !options.unknown.is_empty() {
        return ConfigAnswer::Unknown;
    }
    let asked = options.mode.unwrap_or(basic_mode());
    if asked.mode != mode_number(wish.mode) {
        let own = own_mode(wish, wish.mode);
        return ConfigAnswer::Unacceptable(ConfigRefusal::BadMode, only_mode(own));
    }
    if options.mtu.unwrap_or(DEFAULT_MTU) < LEAST_MTU {
        return ConfigAnswer::Unacceptable(ConfigRefusal::BadMtu, only_mtu(LEAST_MTU));
    }
    match wish.mode {
        Mode::Basic => ConfigAnswer::Accept(Options::none()),
        Mode::Enhanced => answer_to_values(&asked),
    }
}

/// The rows on the values of an enhanced mode option.
fn answer_to_values(asked: &ModeOption) -> ConfigAnswer
    ensures { result ≡ answered_values Enhanced asked.now }
{
    let ModeOption {
        window,
        tries,
        mps,
        ..
    } = *asked;
    if window == 0 || window > GREATEST_WINDOW {
        let better = answered_mode(SUGGESTED_WINDOW, tries, mps);
        return ConfigAnswer::Unacceptable(ConfigRefusal::BadWindow, only_mode(better));
    }
    if mps < LEAST_MPS {
        let better = answered_mode(window, tries, SUGGESTED_MPS);
        return ConfigAnswer::Unacceptable(ConfigRefusal::BadMps, only_mode(better));
    }
    ConfigAnswer::Accept(only_mode(answered_mode(window, tries, mps)))
}

/// What follows from a configuration response with the result `code` and these options: `Accepted` of
/// 0, `Wait` of 4, `Again` of 1 where no other mode is suggested, else `Never`.
pub fn settle(wish: &Wish, code: u16, options: &Options) -> Settled
    ensures { result ≡ settled wish.now code options.now }
{
    match code {
        0 => Settled::Accepted,
        4 => Settled::Wait,
        1 if keeps_mode(wish, options) => Settled::Again(requested(wish, options)),
        _ => Settled::Never,
    }
}

/// Whether no other mode is suggested.
fn keeps_mode(wish: &Wish, options: &Options) -> bool
    ensures { result ≡ keeps_mode wish.now options.now }
{
    let suggested = options.mode.unwrap_or(own_mode(wish, wish.mode));
    suggested.mode == mode_number(wish.mode)
}

/// The next request: the suggested values, none of them above the own one.
fn requested(wish: &Wish, options: &Options) -> Options
    ensures { result ≡ requested wish.now options.now }
{
    let mut request = only_mtu(options.mtu.unwrap_or(wish.mtu).min(wish.mtu));
    request.mode = requested_mode(wish, options.mode);
    request
}

fn requested_mode(wish: &Wish, suggested: Option<ModeOption>) -> Option<ModeOption>
    ensures { result ≡ requested_mode wish.now wish.now.mode suggested }
{
    match wish.mode {
        Mode::Basic => None,
        Mode::Enhanced => {
            let suggested = suggested.unwrap_or(own_mode(wish, Mode::Enhanced));
            Some(bounded(wish, &suggested))
        }
    }
}

fn bounded(wish: &Wish, suggested: &ModeOption) -> ModeOption
    ensures { result ≡ bounded wish.now suggested.now }
{
    ModeOption {
        mode: mode_number(Mode::Enhanced),
        window: suggested.window.min(wish.window),
        tries: suggested.tries.min(wish.tries),
        retransmit: 0,
        monitor: 0,
        mps: suggested.mps.min(wish.mps),
    }
}

/// What both sides agreed on once `answer` accepts the peer's options, and None exactly where it does
/// not.
pub fn agree(mine: &Wish, peer: &Options) -> Option<Agreed>
    ensures { result ≡ agreed mine.now peer.now }
{
    let ConfigAnswer::Accept(_) = answer(mine, peer) else {
        return None;
    };
    let asked = peer.mode.unwrap_or(basic_mode());
    Some(Agreed {
        mode: mine.mode,
        send_mtu: peer.mtu.unwrap_or(DEFAULT_MTU),
        receive_mtu: mine.mtu,
        send_mps: sent_mps(mine.mode, &asked),
        receive_mps: mine.mps,
        send_window: sent_window(mine.mode, &asked, mine.window),
        receive_window: mine.window,
        tries: mine.tries,
    })
}

fn sent_mps(mode: Mode, asked: &ModeOption) -> u16
    ensures { result ≡ sent_mps mode asked.now }
{
    match mode {
        Mode::Basic => 0,
        Mode::Enhanced => asked.mps.min(GREATEST_MPS),
    }
}

fn sent_window(mode: Mode, asked: &ModeOption, own: u8) -> u8
    ensures { result ≡ sent_window mode asked.now own }
{
    match mode {
        Mode::Basic => 0,
        Mode::Enhanced => asked.window.min(own),
    }
}

fn mode_number(mode: Mode) -> u8
    ensures { result ≡ mode_number mode }
{
    match mode {
        Mode::Basic => 0,
        Mode::Enhanced => 3,
    }
}

fn basic_mode() -> ModeOption
    ensures { result ≡ basic_mode }
{
    ModeOption {
        mode: mode_number(Mode::Basic),
        window: 0,
        tries: 0,
        retransmit: 0,
        monitor: 0,
        mps: 0,
    }
}

/// A mode option of a response.
fn answered_mode(window: u8, tries: u8, mps: u16) -> ModeOption
    ensures { result ≡ answered_mode window tries mps }
{
    ModeOption {
        mode: mode_number(Mode::Enhanced),
        window,
        tries,
        retransmit: RETRANSMISSION_TIME,
        monitor: MONITOR_TIME,
        mps,
    }
}

/// The mode option that says what is wished, in a response.
fn own_mode(wish: &Wish, mode: Mode) -> ModeOption
    ensures { result ≡ own_mode wish.now mode }
{
    match mode {
        Mode::Basic => basic_mode(),
        Mode::Enhanced => answered_mode(wish.window, wish.tries, wish.mps),
    }
}

fn only_mode(mode: ModeOption) -> Options
    ensures { result ≡ only_mode mode }
{
    let mut options = Options::none();
    options.mode = Some(mode);
    options
}

fn only_mtu(mtu: u16) -> Options
    ensures { result ≡ only_mtu mtu }
{
    let mut options = Options::none();
    options.mtu = Some(mtu);
    options
}
