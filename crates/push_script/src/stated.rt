//! What the keys of a scenario were stated to be.

ghost use Rattle.std.specs.Prelude.{IfSome};
ghost use Rattle.push_script.specs.Stated.{Stated, IsBetween};

use bt_base::{Serves, Transport};
use std::marker::Model;

/// A key of a scenario.
#[derive(Clone, Copy, Debug, PartialEq, Eq)]
pub(crate) enum Key {
    Transport,
    Serves,
    Acl,
    Chunk,
    Mtu,
    Mps,
    Window,
    Tries,
    Credits,
    Obex,
    Srm,
    Object,
}

/// What the keys of a scenario but `object` were stated to be. Each number is within its range,
/// always.
#[derive(Drop)]
pub(crate) struct Keys {
    pub(crate) transport: Option<Transport>,
    pub(crate) serves: Option<Serves>,
    pub(crate) acl: Option<(u16, u16)>,
    pub(crate) chunk: Option<u16>,
    pub(crate) mtu: Option<u16>,
    pub(crate) mps: Option<u16>,
    pub(crate) window: Option<u16>,
    pub(crate) tries: Option<u16>,
    pub(crate) credits: Option<u16>,
    pub(crate) obex: Option<u16>,
    pub(crate) srm: Option<bool>,
}

impl Model for Keys {
    ghost Value = { Stated };

    ghost view = { λ k. record { transport = k.transport; serves = k.serves; acl = k.acl; chunk = k.chunk; mtu = k.mtu; mps = k.mps; window = k.window; tries = k.tries; credits = k.credits; obex = k.obex; srm = k.srm } };

    ghost invariant = { λ k. IfSome k.acl (λ pair. IsBetween 27 1021 pair.0 × IsBetween 1 64 pair.1) × IfSome k.chunk (IsBetween 1 4096) × IfSome k.mtu (IsBetween 255 32767) × IfSome k.mps (IsBetween 48 1010) × IfSome k.window (IsBetween 1 63) × IfSome k.tries (IsBetween 2 20) × IfSome k.credits (IsBetween 1 40) × IfSome k.obex (IsBetween 255 32767) };
}
