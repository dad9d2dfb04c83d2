//! What a world asks of both hosts alike.

ghost use Rattle.std.specs.Prelude.{◌≡◌, Err, OnOk, OnErr};
ghost use Rattle.bt_host.specs.declared.feed_refusal.FeedRefusal.TheVariants as refusals;

use crate::feed_refusal::FeedRefusal;
use bt_base::NoMemory;

/// What a world is told of octets that a host was fed: want of memory alone, since no controller of a world sends what is refused.
pub(crate) fn want(fed: Result<(), FeedRefusal>) -> Result<(), NoMemory>
    ensures wanted { OnErr result (fed ≡ Err refusals.NoMemory) }
    ensures went { OnOk result (fed ≡ Err refusals.NoMemory → ⊥) }
{
    match fed {
        Err(FeedRefusal::NoMemory) => Err(NoMemory),
        _ => Ok(()),
    }
}
