//! The rows of a database that a lookup shows.

ghost use Rattle.std.specs.Prelude.{◌≡◌, ◌+◌, ◌<◌, ◌≤◌, ◌∷◌, ◌++◌, [], true, length, take, filter, None, IfSome, IfOk, OnOk, OnErr, IsTrue};
ghost use Rattle.std.specs.List.{AllByRecursion};
ghost use Rattle.std.specs.Option.{option_map, option_to_list};
ghost use Rattle.isd_as.specs.IsdAs.{isd_as_number};
ghost use Rattle.seg_core.specs.Encoding.{IsSegment};
ghost use Rattle.seg_core.specs.EntryView.{entry_view, entry_views};
ghost use Rattle.seg_core.specs.Message.{last_of};
ghost use Rattle.std.specs.Ordering.{nat_cmp};
ghost use Rattle.std.specs.Cmp.Lexicographic.{slice_cmp};
ghost use Rattle.row_map.specs.Database.{key, key_of};
ghost use Rattle.path_db.specs.Answer.{covers_entry, matches, segments_of};
ghost use Rattle.row_map.specs.Ends.{first_entry_of};
ghost use Rattle.row_map.specs.declared.end.By.TheVariants.{OneEnd, BothEnds};
ghost use Rattle.path_db.specs.Wanted.{AllHave, answer_to_wanted, is_past, is_wanted, pattern_at};
ghost use Rattle.path_db.specs.Walk.{IsExact, rows_in, segments_there};

use crate::visits::Visits;
use isd_as::{IsdAs, covers};
use row_map::{By, End, IndexKeys, IndexRow, RowRange, isds_number};
use seg_check::expiry;
use seg_core::{Entry, SegType, Segment};
use std::alloc::{AllocError, Global};
use std::cmp::Ordering;

/// The rows that a lookup asks for: of a type, with a first and a last entry that are covered,
/// valid beyond a moment, and with an id above a given one.
#[derive(Clone, Copy)]
pub(crate) struct Wanted {
    pub kind: SegType,
    pub start: IsdAs,
    pub end: IsdAs,
    /// In half seconds since 1970.
    pub moment: u64,
    /// The id after which the lookup goes on. `None` where it begins with the first row.
    pub after: Option<[u8; 32]>,
}

impl Wanted {
    /// Whether the lookup asks for the row of this type and this segment.
    fn asks_for(&self, kind: SegType, segment: &Segment) -> bool
        ensures { result ≡ is_wanted self.now (kind, segment.now) }
    {
        self.matches(kind, segment) && self.moment < expiry(segment) && self.is_past(kind, segment)
    }

    /// Whether the row's key is above the one after which the lookup goes on.
    fn is_past(&self, kind: SegType, segment: &Segment) -> bool
        ensures { result ≡ is_past self.now.kind self.now.after (kind, segment.now) }
    {
        match &self.after {
            Some(id) => cmp_key(kind, segment, self.kind, id).is_gt(),
            None => true,
        }
    }

    /// The pattern for an end.
    pub(crate) fn pattern(&self, end: End) -> IsdAs
        ensures { isd_as_number result ≡ pattern_at end self.now }
    {
        match end {
            End::First => self.start,
            End::Last => self.end,
        }
    }

    /// The number by which an index has each row that the lookup asks for. `None` where the rows
    /// may have several.
    pub(crate) fn number(&self, by: By) -> Option<u64>
        ensures { IfSome result (AllHave by self.now) }
    {
        match by {
            By::OneEnd(end) => self.isd_as_at(end),
            By::BothEnds => self.isds(),
        }
    }

    /// The ISD-AS that the rows have at this end. `None` where the pattern covers several.
    fn isd_as_at(&self, end: End) -> Option<u64>
        ensures { IfSome result (AllHave (OneEnd end) self.now) }
    {
        let pattern = self.pattern(end);
        if is_indexed(pattern) {
            return Some(pattern.to_u64());
        }
        None
    }

    /// The ISDs that the rows have at both ends. `None` where a pattern covers several.
    fn isds(&self) -> Option<u64>
        ensures { IfSome result (AllHave BothEnds self.now) }
    {
        if self.start.isd == 0 || self.end.isd == 0 {
            return None;
        }
        Some(isds_number(self.start.to_u64(), self.end.to_u64()))
    }

    /// Whether the row is known to have expired. Its segment is not read.
    fn is_over(&self, index_row: &IndexRow) -> bool
        ensures { result ≡ true → segments_of (filter (is_wanted self.now) (rows_in (index_row.now ∷ []))) ≡ [] }
    {
        index_row.expires_by(self.moment)
    }

    /// The segment of an index row, where there is one and the lookup asks for it.
    pub(crate) fn shown<'a>(&self, index_row: Option<&'a IndexRow>) -> Option<&'a Segment>
        ensures { segments_there (result ∷ [])
            ≡ segments_of (filter (is_wanted self.now) (rows_in (option_to_list (option_map (λ q. q.now) index_row.entry)))) }
    {
        let index_row = index_row?;
        if self.is_over(index_row) {
            return None;
        }
        let (kind, segment) = index_row.row()?;
        if self.asks_for(kind, segment) {
            return Some(segment);
        }
        None
    }

    /// Whether the row is of the type, and its ends are covered.
    fn matches(&self, kind: SegType, segment: &Segment) -> bool
        ensures { result ≡ matches self.now.kind (isd_as_number self.now.start) (isd_as_number self.now.end) (kind, segment.now) }
    {
        let entries = segment.entries();
        kind.number() == self.kind.number()
            && covers_first(self.start, entries)
            && covers_last(self.end, entries)
    }
}

/// The order of the key of a row and the key of a type and an id.
fn cmp_key(kind: SegType, segment: &Segment, other: SegType, id: &[u8; 32]) -> Ordering
    ensures { result ≡ slice_cmp nat_cmp (key_of (kind, segment.now)) (key other id.now) }
{
    match kind.number().cmp(&other.number()) {
        Ordering::Equal => segment.digest().as_slice().cmp(&id.as_slice()),
        unequal => unequal,
    }
}

/// Whether the pattern covers the first ISD-AS.
fn covers_first(pattern: IsdAs, entries: &[Entry]) -> bool
    ensures { result ≡ covers_entry (isd_as_number pattern) (first_entry_of (entry_views entries.now)) }
{
    covers_entry(pattern, entries.first())
}

/// Whether the pattern covers the last ISD-AS.
fn covers_last(pattern: IsdAs, entries: &[Entry]) -> bool
    ensures { result ≡ covers_entry (isd_as_number pattern) (last_of (entry_views entries.now)) }
{
    covers_entry(pattern, entries.last())
}

/// Whether there is an entry, and the pattern covers its ISD-AS.
fn covers_entry(pattern: IsdAs, entry: Option<&Entry>) -> bool
    ensures { result ≡ covers_entry (isd_as_number pattern) (option_map (λ e. entry_view e.now) entry.entry) }
{
    match entry {
        Some(entry) => covers(pattern, entry.ia),
        None => false,
    }
}

/// Whether the rows for a pattern are found by the index keys of its ISD-AS: no part of the pattern
/// is 0, and the pattern is not 2^64 - 1.
pub(crate) fn is_indexed(pattern: IsdAs) -> bool
    ensures { IsTrue result → IsExact (isd_as_number pattern) }
{
    pattern.isd != 0 && pattern.asn != 0 && pattern.to_u64() < u64::MAX
}

/// The segments of the first rows that the lookup asks for, at most `limit`. `None` means that not
/// enough rows may be visited.
pub(crate) fn first_shown(
    alloc: Global,
    rows: RowRange<'_>,
    wanted: Wanted,
    limit: usize,
    visits: &mut Visits,
) -> Result<Option<Vec<Segment>>, AllocError>
    ensures same { IfOk result (λ it. IfSome it (λ found. found.items ≡ segments_of (answer_to_wanted limit rows.entry wanted))) }
    ensures memory { OnErr result (0 < length (answer_to_wanted limit rows.entry wanted)) }
    ensures few { IfOk result (λ it. IfSome it (λ found. length found.items ≤ limit)) }
    ensures whole { IfOk result (λ it. IfSome it (λ found. AllByRecursion IsSegment found.items)) }
    ensures ended { IfOk result (λ it. it ≡ None → visits.old.left < length rows.entry) }
    ensures visited { visits.new.count ≤ visits.old.count + visits.old.left }
{
    let mut found = Vec::new(alloc);
    for row in rows {
        if found.len() == limit {
            break;
        }
        if !visits.take(1) {
            return Ok(None);
        }
        if wanted.asks_for(row.kind, &row.segment) {
            found.push(row.segment.try_clone()?)?;
        }
    }
    Ok(Some(found))
}

/// The segments of an index row and of the next three that the lookup asks for. All four are read
/// before any is shared, so that the processor waits for their memory at the same time.
fn next_shown<'a>(
    index_row: &'a IndexRow,
    index_keys: &mut IndexKeys<'a>,
    wanted: &Wanted,
) -> [Option<&'a Segment>; 4]
    ensures same { segments_of (filter (is_wanted wanted.now) (rows_in (index_row.now ∷ index_keys.old)))
        ≡ segments_there result ++ segments_of (filter (is_wanted wanted.now) (rows_in index_keys.new)) }
    ensures fewer { length index_keys.new ≤ length index_keys.old }
{
    let second = index_keys.next();
    let third = index_keys.next();
    let fourth = index_keys.next();
    [
        wanted.shown(Some(index_row)),
        wanted.shown(second),
        wanted.shown(third),
        wanted.shown(fourth),
    ]
}

/// Appends segments, up to `limit` in all.
fn append_shown(
    found: &mut Vec<Segment>,
    segments: &[Option<&Segment>],
    limit: usize,
) -> Result<(), AllocError>
    requires few { length found.old.items ≤ limit }
    requires whole { AllByRecursion IsSegment found.old.items }
    ensures same { OnOk result (found.new.items ≡ take limit (found.old.items ++ segments_there segments.now)) }
    ensures whole { OnOk result (AllByRecursion IsSegment found.new.items) }
    ensures memory { OnErr result ((length found.old.items < limit) × (0 < length (segments_there segments.now))) }
{
    match segments {
        [] => Ok(()),
        [segment, rest @ ..] => {
            append_if_shown(found, *segment, limit)?;
            append_shown(found, rest, limit)
        }
    }
}

/// Appends a segment, where there is one and fewer than `limit` segments are there.
fn append_if_shown(
    found: &mut Vec<Segment>,
    segment: Option<&Segment>,
    limit: usize,
) -> Result<(), AllocError>
    requires few { length found.old.items ≤ limit }
    requires whole { AllByRecursion IsSegment found.old.items }
    ensures same { OnOk result (found.new.items ≡ take limit (found.old.items ++ segments_there (segment.entry ∷ []))) }
    ensures whole { OnOk result (AllByRecursion IsSegment found.new.items) }
    ensures memory { OnErr result ((length found.old.items < limit) × (0 < length (segments_there (segment.entry ∷ [])))) }
{
    if let Some(segment) = segment {
        if found.len() < limit {
            found.push(segment.try_clone()?)?;
        }
    }
    Ok(())
}

/// The segments of the first index rows that the lookup asks for, at most `limit`. `None` means
/// that not enough rows may be visited.
pub(crate) fn shown_at(
    alloc: Global,
    index_keys: IndexKeys<'_>,
    wanted: Wanted,
    limit: usize,
    visits: &mut Visits,
) -> Result<Option<Vec<Segment>>, AllocError>
    ensures same { IfOk result (λ it. IfSome it (λ found. found.items ≡ segments_of (answer_to_wanted limit (rows_in index_keys.entry) wanted))) }
    ensures memory { OnErr result (0 < length (answer_to_wanted limit (rows_in index_keys.entry) wanted)) }
    ensures few { IfOk result (λ it. IfSome it (λ found. length found.items ≤ limit)) }
    ensures whole { IfOk result (λ it. IfSome it (λ found. AllByRecursion IsSegment found.items)) }
    ensures visited { visits.new.count ≤ visits.old.count + visits.old.left }
{
    let mut found = Vec::new(alloc);
    let mut index_keys = index_keys;
    while let Some(index_row) = index_keys.next() {
        if found.len() == limit {
            break;
        }
        if !visits.take(1) {
            return Ok(None);
        }
        if wanted.is_over(index_row) {
            continue;
        }
        if !visits.take(3) {
            return Ok(None);
        }
        let shown = next_shown(index_row, &mut index_keys, &wanted);
        append_shown(&mut found, &shown, limit)?;
    }
    Ok(Some(found))
}
