use l2cap_config::*;

const BASIC: Wish = Wish {
    mode: Mode::Basic,
    mtu: 672,
    mps: 0,
    window: 0,
    tries: 3,
};

const ENHANCED: Wish = Wish {
    mode: Mode::Enhanced,
    mtu: 1024,
    mps: 200,
    window: 8,
    tries: 5,
};

/// Whether these options are unacceptable for their MTU, and 48 is offered in its place.
fn has_small_mtu(options: &Options) -> bool {
    let is_refused = match answer(&BASIC, options) {
        ConfigAnswer::Unacceptable(refusal, better) => {
            refusal == ConfigRefusal::BadMtu && better.mtu == Some(48)
        }
        _ => false,
    };
    options.mtu == Some(47) && is_refused && agree(&BASIC, options).is_none()
}

#[test]
fn a_small_mtu_is_unacceptable(rt: HostRuntime) {
    let is_right = match options_of(&[0x01, 0x02, 0x2F, 0x00]) {
        Ok(options) => has_small_mtu(&options),
        Err(_) => false,
    };
    assert!(rt; is_right);
}

/// What is offered in the place of basic mode.
const ENHANCED_MODE: ModeOption = ModeOption {
    mode: 3,
    window: 8,
    tries: 5,
    retransmit: 2000,
    monitor: 12000,
    mps: 200,
};

/// Whether basic mode is unacceptable, and enhanced mode offered in its place.
fn wants_enhanced() -> bool {
    match answer(&ENHANCED, &Options::none()) {
        ConfigAnswer::Unacceptable(refusal, better) => {
            refusal == ConfigRefusal::BadMode && better.mode == Some(ENHANCED_MODE)
        }
        _ => false,
    }
}

#[test]
fn basic_mode_is_no_enhanced_mode(rt: HostRuntime) {
    assert!(rt; wants_enhanced());
}

/// The options of a request in enhanced mode, and an octet behind them.
const WRITTEN: [u8; 16] = [1, 2, 0, 4, 4, 9, 3, 8, 5, 0, 0, 0, 0, 200, 0, 0xFF];

/// Whether who makes a request agrees to it.
fn agrees(request: &Options) -> bool {
    match agree(&ENHANCED, request) {
        Some(agreed) => agreed.send_mps == 200 && agreed.send_window == 8,
        None => false,
    }
}

/// Whether options of types that are not known, behind a request, are answered with those types.
fn has_unknown(request: &Options, unknown: &Options) -> bool {
    let all = merged(request, unknown);
    all.unknown.as_slice() == [0x20u8, 0x21].as_slice()
        && matches!(answer(&ENHANCED, &all), ConfigAnswer::Unknown)
}

/// The request that is made anew in enhanced mode.
fn request_again() -> Options {
    match settle(&ENHANCED, 1, &Options::none()) {
        Settled::Again(request) => request,
        _ => Options::none(),
    }
}

#[test]
fn options_are_written(rt: HostRuntime) {
    let request = match settle(&ENHANCED, 1, &Options::none()) {
        Settled::Again(request) => request,
        _ => Options::none(),
    };
    let mut into = [0xFFu8; 16];
    let n = put_options(&request, &mut into);
    assert!(rt; n == 15 && into == WRITTEN && agrees(&request));
}

#[test]
fn unknown_options_are_told(rt: HostRuntime) {
    let is_right = match options_of(&[0x20, 0, 0xA1, 1, 7, 0x21, 0, 0x20, 0]) {
        Ok(unknown) => has_unknown(&request_again(), &unknown),
        Err(_) => false,
    };
    assert!(rt; is_right);
}

#[test]
fn lengths_are_refused(rt: HostRuntime) {
    assert!(rt;
        matches!(
            options_of(&[0x81, 1, 0]),
            Err(ConfigRefusal::BadOptionLength)
        )
    );
    assert!(rt;
        matches!(
            options_of(&[0x01, 2, 0]),
            Err(ConfigRefusal::BadOptionLength)
        )
    );
    assert!(rt; matches!(options_of(&[0x01]), Err(ConfigRefusal::BadOptionLength)));
}
