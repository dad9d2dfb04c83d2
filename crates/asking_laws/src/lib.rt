//! What both hosts of a run ask of their channels: one thing at a time, with identifiers that do not come round.
#![tactic(auto)]

ghost use Rattle.asking_laws.specs.Rising.{IdentifiersRiseOnLinks};
ghost use Rattle.asking_laws.specs.Singly.{ClientsHoldOne, EndsAreAskedSingly, OneCountsOnLinks};

/// Whatever happens to a client, one channel counts at most on each of its links, at each moment: it asks for a channel where none counts.
pub fn clients_hold_one()
    ensures { ClientsHoldOne }
{}

/// So it is on each link of a run, at each moment of it, and behind all.
pub fn one_counts_on_links()
    ensures { OneCountsOnLinks }
{
    clients_hold_one();
}

/// On each link of a run the identifiers of both hosts rise: host a asks for two channels at most, with its question for features between them, and host b grants these.
pub fn identifiers_rise_on_links()
    ensures { IdentifiersRiseOnLinks }
{
    host_laws::laws::clients_ask_in_order();
    host_laws::laws::servers_ask_for_nothing();
    identifier_laws::ends_are_asked_anew();
    identifier_laws::two_are_granted();
    identifier_laws::granters_never_fall();
}

/// On each link of a run host a asks for the end of one channel at a time: one request for an end waits at most, and each has an identifier that was not given before.
pub fn ends_are_asked_singly()
    ensures { EndsAreAskedSingly }
{
    host_laws::laws::clients_ask_in_order();
    host_laws::laws::servers_ask_for_nothing();
    identifier_laws::ends_are_asked_anew();
    channel_laws::laws::requests_have_names();
    one_counts_on_links();
}
