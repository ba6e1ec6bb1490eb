//! Equality of segments.

ghost use Rattle.std.specs.Prelude.{◌≡◌, ◌↔◌, IsTrue};
ghost use Rattle.std.specs.Option.{option_eq, option_map};
ghost use Rattle.seg_core.specs.EntryView.{entry_view, entry_views};
ghost use Rattle.seg_core.specs.Equality.{same_bytes, same_entry, same_entries, same_segment};
ghost use Rattle.seg_core.specs.EqualityLaws.{same_segment-laws};

use crate::entry::Entry;
use crate::path::is_same;
use crate::segment::Segment;

/// Whether two pieces that may be missing are the same.
fn same_pieces(one: Option<&[u8]>, other: Option<&[u8]>) -> bool
    ensures { result ≡ option_eq same_bytes (option_map (λ s. s.now) one.entry) (option_map (λ s. s.now) other.entry) }
{
    match (one, other) {
        (Some(one), Some(other)) => one == other,
        (None, None) => true,
        _ => false,
    }
}

/// Whether two entries are the same.
fn same_entry(one: &Entry, other: &Entry) -> bool
    ensures { result ≡ same_entry (entry_view one.now) (entry_view other.now) }
{
    is_same(one.ia, other.ia)
        && is_same(one.next, other.next)
        && one.ingress == other.ingress
        && one.egress == other.egress
        && one.exp_time == other.exp_time
        && one.signed() == other.signed()
        && one.signature() == other.signature()
        && same_pieces(one.unsigned(), other.unsigned())
}

/// Whether entries are the same, in the same order.
fn same_entries(some: &[Entry], others: &[Entry]) -> bool
    ensures { result ≡ same_entries (entry_views some.now) (entry_views others.now) }
{
    match (some, others) {
        ([], []) => true,
        ([first, some @ ..], [other, others @ ..]) => {
            same_entry(first, other) && same_entries(some, others)
        }
        _ => false,
    }
}

/// Whether two segments are the same.
fn same_segment(one: &Segment, other: &Segment) -> bool
    ensures { result ≡ same_segment one.now other.now }
{
    one.timestamp() == other.timestamp()
        && one.segment_id() == other.segment_id()
        && one.segment_info() == other.segment_info()
        && same_entries(one.entries(), other.entries())
}

/// Segments are equal exactly when all their numbers and bytes are the same.
impl PartialEq for Segment {
    ghost eq = { same_segment };

    ghost laws = { same_segment-laws };

    fn eq(&self, other: &Segment) -> bool
        ensures test { result ≡ same_segment self.now other.now }
        ensures same { IsTrue result ↔ (self.now ≡ other.now) }
    {
        same_segment(self, other)
    }
}
