//! What the inbox of a server gains where its links are over either transport, each by its own units alone.
#![tactic(auto)]

ghost use Rattle.either_laws.specs.Anew.{LinksEndAsNew};
ghost use Rattle.either_laws.specs.ByLinks.{OrderlyInputsAreByLinks, ServersGainByLinks};

/// On input that is orderly on each link by its own units, over L2CAP or over RFCOMM, the inbox of a server gains exactly the objects that these spell.
pub fn servers_gain_by_links()
    ensures { ServersGainByLinks }
{}

/// Input that is orderly over one transport on all links is orderly on each.
pub fn orderly_inputs_are_by_links()
    ensures { OrderlyInputsAreByLinks }
{}

/// Behind the end of a link a server is as a new one, over what its inbox stored.
pub fn links_end_as_new()
    ensures { LinksEndAsNew }
{}
