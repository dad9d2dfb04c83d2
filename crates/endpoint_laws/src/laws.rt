//! What holds of the endpoints of a host.

ghost use Rattle.endpoint_laws.specs.Again.{LaterRepeatsAreAnswered};
ghost use Rattle.endpoint_laws.specs.Given.{EndpointsRise, GivenAreBelow, EndpointsAreGivenOnce, LaterAreGreater};
ghost use Rattle.endpoint_laws.specs.Shared.{EndpointsAreShared, GivenAreOnChannels};

/// Whatever happens to a host: the endpoint that it gives next never falls, and each that it asked for a channel with or granted one with is below it, also where
/// the channel was refused. So each is given by one request or grant alone, and later ones give greater endpoints.
pub fn endpoints_are_given_once()
    ensures rise { EndpointsRise }
    ensures below { GivenAreBelow }
    ensures once { EndpointsAreGivenOnce }
    ensures greater { LaterAreGreater }
{}

/// A request for whose response there is room, and that comes again while the link is up, gets the same response or none again, whatever happened in between, where
/// no other request of its kind came in. One whose length does not fit its code is a request of its kind, and the response is that it is not understood.
pub fn later_repeats_are_answered()
    ensures { LaterRepeatsAreAnswered }
{}

/// Of two hosts on a link that loses, repeats and damages: where one has, or had, a channel at an endpoint of its own, each channel that the other has, or ever had,
/// for that endpoint is this one, or was granted to the same request. And what a host gives for an endpoint of its peer it gives on a channel for that endpoint.
pub fn endpoints_are_shared()
    ensures shared { EndpointsAreShared }
    ensures given { GivenAreOnChannels }
{
    endpoints_are_given_once();
    channel_laws::laws::channels_belong();
    channel_laws::laws::each_end_runs();
}
