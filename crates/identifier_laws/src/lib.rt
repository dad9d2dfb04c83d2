//! Laws of the identifiers of requests: that they do not come round.
#![tactic(auto)]

ghost use Rattle.identifier_laws.specs.Granting.{TwoAreGranted};
ghost use Rattle.identifier_laws.specs.Rising.{EndsAreAskedAnew, GrantersNeverFall};

/// Of a host that offers no channel and makes few requests the identifiers rise, whatever happens to it; and each request for the end of a channel that waits did so
/// before, or none did for that channel, and it has an identifier that was not given before.
pub fn ends_are_asked_anew()
    ensures { EndsAreAskedAnew }
{}

/// Of a host that asks for no channel and for no features the identifiers rise, where it grants few channels.
pub fn granters_never_fall()
    ensures { GrantersNeverFall }
{}

/// A host that asks for no channel grants two at most, where its peer offers none, asks for two at most, one after the other, and makes 14 requests
/// at most, whatever a link loses, repeats and damages.
pub fn two_are_granted()
    ensures { TwoAreGranted }
{
    channel_laws::laws::channels_belong();
    channel_laws::laws::pipes::grants_are_single();
    channel_laws::laws::pipes::none_is_called();
}
