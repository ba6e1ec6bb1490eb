//! Tests of whether entries are one path.

ghost use Rattle.std.specs.Prelude.{◌≡◌, ◌==◌};
ghost use Rattle.std.specs.List.{list_any};
ghost use Rattle.isd_as.specs.IsdAs.{isd_as_number};
ghost use Rattle.seg_core.specs.EntryView.{entry_views};
ghost use Rattle.seg_core.specs.WellFormed.{is_linked, is_chain, has_no_loop};

use crate::entry::Entry;
use isd_as::IsdAs;

/// Whether each entry leads to the one after it, and the last one ends the path.
fn is_linked(entries: &[Entry]) -> bool
    ensures { result ≡ is_linked (entry_views entries.now) }
{
    match entries {
        [] => true,
        [last] => last.next.to_u64() == 0 && last.egress == 0,
        [first, second, ..] => {
            first.next == second.ia
                && first.egress != 0
                && second.ingress != 0
                && is_linked(&entries[1..])
        }
    }
}

/// Whether the first entry has no ingress, and the entries are linked.
pub(crate) fn is_chain(entries: &[Entry]) -> bool
    ensures { result ≡ is_chain (entry_views entries.now) }
{
    match entries {
        [] => true,
        [first, ..] => first.ingress == 0 && is_linked(entries),
    }
}

/// Whether two ISD-AS numbers are the same.
pub(crate) fn is_same(one: IsdAs, other: IsdAs) -> bool
    ensures { result ≡ (isd_as_number one == isd_as_number other) }
{
    one == other
}

/// Whether one of the entries has this AS.
fn stands_in(ia: IsdAs, entries: &[Entry]) -> bool
    ensures { result ≡ list_any (λ f. f.ia == isd_as_number ia) (entry_views entries.now) }
{
    entries.iter().any(|e| is_same(e.ia, ia))
}

/// Whether no AS occurs twice.
pub(crate) fn has_no_loop(entries: &[Entry]) -> bool
    ensures { result ≡ has_no_loop (entry_views entries.now) }
{
    match entries {
        [] => true,
        [first, rest @ ..] => !stands_in(first.ia, rest) && has_no_loop(rest),
    }
}
