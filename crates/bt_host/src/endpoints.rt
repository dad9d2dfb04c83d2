//! The channels that an end uses.

ghost use Rattle.std.specs.Prelude.{◌≡◌, []};
ghost use Rattle.shelf_model.specs.host_model.specs.Endpoints.{endpoint_of, with_endpoint};
ghost use Rattle.bt_host.specs.EndpointLists.{endpoints_of};

use arrayvec::ArrayVec;
use std::marker::Model;

/// How many channels an end keeps at most.
const MOST: usize = 4;

/// The channel of a PSM, by its own endpoint.
#[derive(Clone, Copy, Default)]
struct Endpoint {
    psm: u16,
    own: u16,
}

/// The channel that an end uses for each PSM. A clause sees the list of them.
#[derive(Drop)]
pub(crate) struct Endpoints {
    items: ArrayVec<Endpoint, MOST>,
}

impl Model for Endpoints {
    ghost use Rattle.std.specs.Prelude.{◌≤◌, List, length};
    ghost use Rattle.shelf_model.specs.host_model.specs.Endpoints as model;
    ghost use Rattle.bt_host.specs.EndpointLists.{endpoints_of};

    ghost Value = { List model.Endpoint };

    ghost view = { λ endpoints. endpoints_of endpoints.items.items };

    ghost invariant = { λ endpoints. length endpoints.items.items ≤ 4 };
}

/// The own endpoint of the first of these for that PSM.
fn found(endpoints: &[Endpoint], psm: u16) -> Option<u16>
    ensures { result ≡ endpoint_of psm (endpoints_of endpoints.now) }
{
    let mut left = endpoints;
    while let [first, behind @ ..] = left {
        if first.psm == psm {
            return Some(first.own);
        }
        left = behind;
    }
    None
}

impl Endpoints {
    /// There is none.
    pub(crate) fn new() -> Endpoints
        ensures { result ≡ [] }
    {
        Endpoints {
            items: ArrayVec::new(),
        }
    }

    /// There is none any more.
    pub(crate) fn clear(&mut self)
        ensures { self.new ≡ [] }
    {
        self.items.clear();
    }

    /// The own endpoint of the channel for that PSM.
    pub(crate) fn of(&self, psm: u16) -> Option<u16>
        ensures { result ≡ endpoint_of psm self.now }
    {
        found(self.items.as_slice(), psm)
    }

    /// The channel of that own endpoint is the one for that PSM.
    pub(crate) fn put(&mut self, psm: u16, own: u16)
        ensures { self.new ≡ with_endpoint psm own self.old }
    {
        self.items.retain(|other| other.psm != psm);
        self.items.truncate(MOST - 1);
        self.items.insert(0, Endpoint { psm, own });
    }
}
