//! When a segment expires.

ghost use Rattle.std.specs.Prelude.{◌≡◌};
ghost use Rattle.seg_core.specs.EntryView.{entry_views};
ghost use Rattle.seg_check.specs.Expiry.{least_exp_time, expiry_of};

use seg_core::{Entry, Segment};

/// When a segment expires, in half seconds since 1970: the moment at which the first of its hop
/// fields expires. The call takes no memory.
#[tactic(auto, unfolding(crate::specs::Expiry::expiry_of))]
pub fn expiry(segment: &Segment) -> u64
    ensures { result ≡ expiry_of segment.now }
{
    let least = least_exp_time(segment.entries());
    2 * u64::from(segment.timestamp()) + 675 * (1 + u64::from(least))
}

/// The least exp_time of the entries.
fn least_exp_time(entries: &[Entry]) -> u8
    ensures { result ≡ least_exp_time (entry_views entries.now) }
{
    entries
        .iter()
        .map(|entry| entry.exp_time)
        .min()
        .unwrap_or(0)
}
