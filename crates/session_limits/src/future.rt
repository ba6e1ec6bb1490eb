//! Times that lie too far in the future.

ghost use Rattle.std.specs.Prelude.{◌≡◌, ◌<◌, nat_lt};
ghost use Rattle.std.specs.List.{list_any};
ghost use Rattle.session_limits.specs.Future.{is_row_after, last_moment};

use seg_core::{SegType, Segment};

/// Whether the timestamp of a segment lies more than a bound in seconds after a moment in half
/// seconds.
pub(crate) fn is_one_after(rows: &[(SegType, Segment)], now: u64, bound: u64) -> bool
    ensures { result ≡ list_any (is_row_after (last_moment bound now)) rows.now }
{
    rows.iter().any(|row| is_row_after(row, now, bound))
}

/// Whether the timestamp of a segment does.
fn is_row_after(row: &(SegType, Segment), now: u64, bound: u64) -> bool
    ensures { result ≡ is_row_after (last_moment bound now) row.now }
{
    is_after(2 * u64::from(row.1.timestamp()), now, bound)
}

/// Whether a moment lies more than a bound in seconds after another. Moments are in half seconds.
pub(crate) fn is_after(moment: u64, now: u64, bound: u64) -> bool
    ensures { result ≡ nat_lt (last_moment bound now) moment }
{
    let last = now.saturating_add(bound.saturating_mul(2));
    last < moment
}
