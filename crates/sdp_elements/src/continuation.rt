//! Continuation states (Core 5.1, Volume 3 Part B, 4.3).

ghost use Rattle.std.specs.Prelude.{◌≡◌, option_map};
ghost use Rattle.sdp_elements.specs.Exchange.{continuation_in};

/// How many octets a continuation state has at most.
const LONGEST_CONTINUATION: usize = 16;

/// The continuation state that the octets are to their end: its length, at most sixteen, and so many
/// octets. `None` where they are none.
pub fn continuation_in(octets: &[u8]) -> Option<&[u8]>
    ensures { option_map (λ x. x.now) result ≡ continuation_in octets.now }
{
    let (length, continuation) = octets.split_first()?;
    let length = usize::from(*length);
    if LONGEST_CONTINUATION < length || length != continuation.len() {
        return None;
    }
    Some(continuation)
}
