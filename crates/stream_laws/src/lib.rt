//! What `receive` stores of a stream whose links are over either transport is what the packets of the stream spell.
#![tactic(auto)]

ghost use Rattle.stream_laws.specs.StreamsByLinks.{ReceivesByLinks, ReceivesStoreByLinks};

/// What `receive` stores is exactly what the packets of its stream spell, link after link, where each link is orderly over its own transport.
pub fn receives_by_links()
    ensures { ReceivesByLinks }
{}

/// The same as a clause says it, beside what it stores where all links are over one transport.
pub fn receives_store_by_links()
    ensures { ReceivesStoreByLinks }
{}
