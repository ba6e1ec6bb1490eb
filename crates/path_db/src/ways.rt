//! The ways to the rows that a lookup shows: along an index, or over all rows of the type. Each way
//! has a limit of rows to visit and ends without an answer where it does not suffice, and each is
//! tried anew with four times the limit. So a short way decides how many are visited. Where no way
//! is short, one that visits the rows in the order of their keys is followed to its end.

ghost use Rattle.std.specs.Prelude.{◌≡◌, ◌+◌, ◌*◌, ◌^◌, ◌<◌, ◌≤◌, ◌&&◌, None, length, filter, IsTrue, IfSome, IfOk, OnOk, OnErr};
ghost use Rattle.std.specs.List.{AllByRecursion};
ghost use Rattle.std.specs.List.Sorted.{IsStrictlySortedBy};
ghost use Rattle.isd_as.specs.IsdAs.{isd_as_number};
ghost use Rattle.seg_core.specs.Encoding.{IsSegment};
ghost use Rattle.seg_core.specs.Registration.{type_number};
ghost use Rattle.row_map.specs.IndexKey.{index_key_cmp, stands_at, stands_between};
ghost use Rattle.row_map.specs.declared.end.By.TheVariants.{OneEnd};
ghost use Rattle.row_map.specs.Database.{IsRising};
ghost use Rattle.row_map.specs.RowMap.{HasRowPut};
ghost use Rattle.path_db.specs.Answer.{segments_of};
ghost use Rattle.row_map.specs.Ranges.{is_of_type};
ghost use Rattle.row_map.specs.EndKeys.{index_number, IsRowIndex, IsCurrent};
ghost use Rattle.path_db.specs.Wanted.{answer_to_wanted, is_past, is_wanted};
ghost use Rattle.path_db.specs.Walk.{AreIndexes, IsWildcard, HasKeysOf, is_past_id};

use crate::answers::{Wanted, first_shown, is_indexed, shown_at};
use crate::visits::Visits;
use isd_as::IsdAs;
use row_map::{By, End, EndIndex, IndexKeys, Row, RowMap, RowRange};
use seg_core::{SegType, Segment};
use std::alloc::{AllocError, Global};

/// How many rows a way may visit at first, beside as many as the lookup shows at most.
const FIRST_VISITS: usize = 64;

/// Ways are tried anew until they may visit the rows divided by this number. A row at an index key
/// takes some three times as long as the next row by its key, so longer ways along an ISD would
/// take longer than a walk over all rows.
const FEW_VISITED: usize = 64;

/// The indexes of rows: by the ISD-AS at either end, and by the ISDs at both.
#[derive(Clone, Copy)]
pub(crate) struct Indexes<'a> {
    pub by_first: &'a EndIndex,
    pub by_last: &'a EndIndex,
    pub by_isds: &'a EndIndex,
}

/// The answer by a short way, or along an index where there is none. `None` means that only a walk
/// over all rows remains: no way is short, no pattern has an ISD-AS, and one has no ISD.
pub(crate) fn shown_by_index(
    alloc: Global,
    rows: &RowMap,
    indexes: Indexes<'_>,
    wanted: Wanted,
    limit: usize,
    visits: &mut Visits,
) -> Result<Option<Vec<Segment>>, AllocError>
    requires rising { IsRising rows.now }
    requires indexes { AreIndexes rows.now indexes }
    requires some { 0 < limit }
    requires begun { visits.old.count ≡ 0 }
    ensures same { IfOk result (λ it. IfSome it (λ found. found.items ≡ segments_of (answer_to_wanted limit rows.now wanted))) }
    ensures memory { OnErr result (0 < length (answer_to_wanted limit rows.now wanted)) }
    ensures few { IfOk result (λ it. IfSome it (λ found. length found.items ≤ limit)) }
    ensures whole { IfOk result (λ it. IfSome it (λ found. AllByRecursion IsSegment found.items)) }
    ensures visited { visits.new.count ≤ 6 * (limit + 64) + 2 * length rows.now }
{
    if !has_way(wanted.start) && !has_way(wanted.end) {
        return Ok(None);
    }
    let found = shown_in_rounds(alloc, rows, indexes, wanted, limit, visits)?;
    if found.is_some() {
        return Ok(found);
    }
    visits.allow(rows.len());
    if is_indexed(wanted.end) {
        let by = By::OneEnd(End::Last);
        return shown_along(alloc, rows, by, indexes.by_last, wanted, limit, visits);
    }
    if is_indexed(wanted.start) {
        let by = By::OneEnd(End::First);
        return shown_along(alloc, rows, by, indexes.by_first, wanted, limit, visits);
    }
    shown_along(
        alloc,
        rows,
        By::BothEnds,
        indexes.by_isds,
        wanted,
        limit,
        visits,
    )
}

/// The answer by a way that visits few of the rows. `None` means that there is none.
fn shown_in_rounds(
    alloc: Global,
    rows: &RowMap,
    indexes: Indexes<'_>,
    wanted: Wanted,
    limit: usize,
    visits: &mut Visits,
) -> Result<Option<Vec<Segment>>, AllocError>
    requires rising { IsRising rows.now }
    requires indexes { AreIndexes rows.now indexes }
    requires some { 0 < limit }
    requires begun { visits.old.count ≡ 0 }
    ensures same { IfOk result (λ it. IfSome it (λ found. found.items ≡ segments_of (answer_to_wanted limit rows.now wanted))) }
    ensures memory { OnErr result (0 < length (answer_to_wanted limit rows.now wanted)) }
    ensures few { IfOk result (λ it. IfSome it (λ found. length found.items ≤ limit)) }
    ensures whole { IfOk result (λ it. IfSome it (λ found. AllByRecursion IsSegment found.items)) }
    ensures visited { visits.new.count ≤ 6 * (limit + 64) + length rows.now }
{
    let most = rows.len() / FEW_VISITED;
    let first = limit.saturating_add(FIRST_VISITS);
    let mut budget = first;
    for _round in 0..32u32 {
        let found = shown_within(alloc, rows, indexes, wanted, limit, visits, budget)?;
        if found.is_some() || most <= budget {
            return Ok(found);
        }
        budget *= 4;
    }
    Ok(None)
}

/// The answer by the first way that needs to visit no more rows than `budget`: along the index of
/// an ISD-AS, along that of two ISDs, over the rows of the type, or along the index of one ISD.
/// `None` means that there is no such way.
fn shown_within(
    alloc: Global,
    rows: &RowMap,
    indexes: Indexes<'_>,
    wanted: Wanted,
    limit: usize,
    visits: &mut Visits,
    budget: usize,
) -> Result<Option<Vec<Segment>>, AllocError>
    requires rising { IsRising rows.now }
    requires indexes { AreIndexes rows.now indexes }
    requires some { 0 < limit }
    ensures same { IfOk result (λ it. IfSome it (λ found. found.items ≡ segments_of (answer_to_wanted limit rows.now wanted))) }
    ensures memory { OnErr result (0 < length (answer_to_wanted limit rows.now wanted)) }
    ensures few { IfOk result (λ it. IfSome it (λ found. length found.items ≤ limit)) }
    ensures whole { IfOk result (λ it. IfSome it (λ found. AllByRecursion IsSegment found.items)) }
    ensures visited { visits.new.count ≤ visits.old.count + 6 * budget }
{
    let found = shown_exactly(alloc, rows, indexes, wanted, limit, visits, budget)?;
    if found.is_some() {
        return Ok(found);
    }
    visits.allow(budget);
    let found = shown_by_type(alloc, rows, wanted, limit, visits)?;
    if found.is_some() {
        return Ok(found);
    }
    visits.allow(budget);
    let found = shown_by_isd(
        alloc,
        rows,
        End::Last,
        indexes.by_last,
        wanted,
        limit,
        visits,
    )?;
    if found.is_some() {
        return Ok(found);
    }
    visits.allow(budget);
    shown_by_isd(
        alloc,
        rows,
        End::First,
        indexes.by_first,
        wanted,
        limit,
        visits,
    )
}

/// The answer along the first index that has all rows of the lookup by one number and needs to
/// visit no more rows than `budget`. `None` means that there is no such index.
fn shown_exactly(
    alloc: Global,
    rows: &RowMap,
    indexes: Indexes<'_>,
    wanted: Wanted,
    limit: usize,
    visits: &mut Visits,
    budget: usize,
) -> Result<Option<Vec<Segment>>, AllocError>
    requires rising { IsRising rows.now }
    requires indexes { AreIndexes rows.now indexes }
    requires some { 0 < limit }
    ensures same { IfOk result (λ it. IfSome it (λ found. found.items ≡ segments_of (answer_to_wanted limit rows.now wanted))) }
    ensures memory { OnErr result (0 < length (answer_to_wanted limit rows.now wanted)) }
    ensures few { IfOk result (λ it. IfSome it (λ found. length found.items ≤ limit)) }
    ensures whole { IfOk result (λ it. IfSome it (λ found. AllByRecursion IsSegment found.items)) }
    ensures visited { visits.new.count ≤ visits.old.count + 3 * budget }
{
    visits.allow(budget);
    let last = By::OneEnd(End::Last);
    let found = shown_along(alloc, rows, last, indexes.by_last, wanted, limit, visits)?;
    if found.is_some() {
        return Ok(found);
    }
    visits.allow(budget);
    let first = By::OneEnd(End::First);
    let found = shown_along(alloc, rows, first, indexes.by_first, wanted, limit, visits)?;
    if found.is_some() {
        return Ok(found);
    }
    visits.allow(budget);
    shown_along(
        alloc,
        rows,
        By::BothEnds,
        indexes.by_isds,
        wanted,
        limit,
        visits,
    )
}

/// The answer along an index, where it has all rows of the lookup by one number. `None` means that
/// not enough rows may be visited, that the rows may have several numbers, or that memory was
/// refused for the id after which the lookup goes on.
fn shown_along(
    alloc: Global,
    rows: &RowMap,
    by: By,
    index: &EndIndex,
    wanted: Wanted,
    limit: usize,
    visits: &mut Visits,
) -> Result<Option<Vec<Segment>>, AllocError>
    requires rising { IsRising rows.now }
    requires index { IsRowIndex (index_number by) rows.now index.now }
    requires some { 0 < limit }
    ensures same { IfOk result (λ it. IfSome it (λ found. found.items ≡ segments_of (answer_to_wanted limit rows.now wanted))) }
    ensures memory { OnErr result (0 < length (answer_to_wanted limit rows.now wanted)) }
    ensures few { IfOk result (λ it. IfSome it (λ found. length found.items ≤ limit)) }
    ensures whole { IfOk result (λ it. IfSome it (λ found. AllByRecursion IsSegment found.items)) }
    ensures visited { visits.new.count ≤ visits.old.count + visits.old.left }
{
    let Some(number) = wanted.number(by) else {
        return Ok(None);
    };
    let _count = rows.len();
    let Some(index_keys) = exact_keys(alloc, index, &wanted, number) else {
        return Ok(None);
    };
    shown_at(alloc, index_keys, wanted, limit, visits)
}

/// The answer along the index of this end, where the pattern for it has an ISD and no AS. `None`
/// means that not all rows of the ISD may be visited, or that the pattern is another.
fn shown_by_isd(
    alloc: Global,
    rows: &RowMap,
    end: End,
    index: &EndIndex,
    wanted: Wanted,
    limit: usize,
    visits: &mut Visits,
) -> Result<Option<Vec<Segment>>, AllocError>
    requires rising { IsRising rows.now }
    requires index { IsRowIndex (index_number (OneEnd end)) rows.now index.now }
    requires some { 0 < limit }
    ensures same { IfOk result (λ it. IfSome it (λ found. found.items ≡ segments_of (answer_to_wanted limit rows.now wanted))) }
    ensures memory { OnErr result (0 < length (answer_to_wanted limit rows.now wanted)) }
    ensures few { IfOk result (λ it. IfSome it (λ found. length found.items ≤ limit)) }
    ensures whole { IfOk result (λ it. IfSome it (λ found. AllByRecursion IsSegment found.items)) }
    ensures visited { visits.new.count ≤ visits.old.count + visits.old.left }
{
    let pattern = wanted.pattern(end);
    if is_wildcard(pattern) {
        let index_keys = isd_keys(index, &wanted, pattern.to_u64());
        return shown_between(alloc, rows, index_keys, wanted, limit, visits);
    }
    Ok(None)
}

/// The answer over the rows of the type, where no pattern has an ISD-AS. Otherwise a way along its
/// index is as short.
fn shown_by_type(
    alloc: Global,
    rows: &RowMap,
    wanted: Wanted,
    limit: usize,
    visits: &mut Visits,
) -> Result<Option<Vec<Segment>>, AllocError>
    ensures same { IfOk result (λ it. IfSome it (λ found. found.items ≡ segments_of (answer_to_wanted limit rows.now wanted))) }
    ensures memory { OnErr result (0 < length (answer_to_wanted limit rows.now wanted)) }
    ensures few { IfOk result (λ it. IfSome it (λ found. length found.items ≤ limit)) }
    ensures whole { IfOk result (λ it. IfSome it (λ found. AllByRecursion IsSegment found.items)) }
    ensures visited { visits.new.count ≤ visits.old.count + visits.old.left }
{
    if is_indexed(wanted.start) || is_indexed(wanted.end) {
        return Ok(None);
    }
    shown_of_type(alloc, rows, wanted, limit, visits)
}

/// Whether the rows for a pattern are found by index keys.
fn has_way(pattern: IsdAs) -> bool {
    is_indexed(pattern) || is_wildcard(pattern)
}

/// Whether the rows for a pattern are found by the index keys of a range: the pattern's ISD is not
/// 0, its AS is 0, and it is not the pattern of the greatest ISD.
fn is_wildcard(pattern: IsdAs) -> bool
    ensures { IsTrue result → IsWildcard (isd_as_number pattern) }
{
    pattern.isd != 0 && pattern.isd < u16::MAX && pattern.asn == 0
}

/// The index keys of the type and a number, those above the id where the lookup goes on after one.
/// `None` means that memory was refused for a copy of the id.
fn exact_keys<'a>(
    alloc: Global,
    index: &'a EndIndex,
    wanted: &Wanted,
    number: u64,
) -> Option<IndexKeys<'a>>
    requires { number + 1 < 2 ^ 64 }
    ensures same { IfSome result (λ keys. keys ≡ filter (λ q. stands_at (type_number wanted.now.kind) number q && is_past_id wanted.now.after q) index.now) }
    ensures rising { IsStrictlySortedBy index_key_cmp index.now }
{
    match &wanted.after {
        Some(id) => index.keys_after(alloc, wanted.kind, number, id),
        None => Some(index.keys_at(wanted.kind, number)),
    }
}

/// The index keys of the type and all ASes of an ISD, the one with this number and AS 0.
fn isd_keys<'a>(index: &'a EndIndex, wanted: &Wanted, number: u64) -> IndexKeys<'a>
    requires { number + 2 ^ 48 < 2 ^ 64 }
    ensures { result ≡ filter (stands_between (type_number wanted.now.kind) number (number + 2 ^ 48)) index.now }
{
    index.keys_between(wanted.kind, number, number + (1 << 48))
}

/// The answer from rows at index keys in any order, which are all those that the lookup asks for.
/// `None` means that there are more index keys than rows may be visited.
fn shown_between(
    alloc: Global,
    rows: &RowMap,
    index_keys: IndexKeys<'_>,
    wanted: Wanted,
    limit: usize,
    visits: &mut Visits,
) -> Result<Option<Vec<Segment>>, AllocError>
    requires rising { IsRising rows.now }
    requires current { AllByRecursion (IsCurrent rows.now) index_keys }
    requires all { HasKeysOf (is_wanted wanted) rows.now index_keys }
    requires some { 0 < limit }
    ensures same { IfOk result (λ it. IfSome it (λ found. found.items ≡ segments_of (answer_to_wanted limit rows.now wanted))) }
    ensures memory { OnErr result (0 < length (answer_to_wanted limit rows.now wanted)) }
    ensures few { IfOk result (λ it. IfSome it (λ found. length found.items ≤ limit)) }
    ensures whole { IfOk result (λ it. IfSome it (λ found. AllByRecursion IsSegment found.items)) }
    ensures visited { visits.new.count ≤ visits.old.count + visits.old.left }
{
    let Some(sorted) = sorted_rows(alloc, rows, index_keys, &wanted, visits)? else {
        return Ok(None);
    };
    let found = shown_by_rows(alloc, &sorted, wanted, limit, &mut Visits::none())?;
    Ok(Some(found))
}

/// The rows that the lookup asks for, which are at these index keys, in the order of their keys.
/// They are shared. `None` means that there are more index keys than rows may be visited.
fn sorted_rows(
    alloc: Global,
    rows: &RowMap,
    index_keys: IndexKeys<'_>,
    wanted: &Wanted,
    visits: &mut Visits,
) -> Result<Option<RowMap>, AllocError>
    requires current { AllByRecursion (IsCurrent rows.now) index_keys }
    requires all { HasKeysOf (is_wanted wanted.now) rows.now index_keys }
    ensures same { IfOk result (λ it. IfSome it (λ sorted. sorted ≡ filter (is_wanted wanted.now) rows.now)) }
    ensures memory { OnErr result (0 < length (filter (is_wanted wanted.now) rows.now)) }
    ensures visited { visits.new.count ≤ visits.old.count + visits.old.left }
{
    let _count = rows.len();
    let mut sorted = RowMap::new(alloc);
    let mut index_keys = index_keys;
    while let Some(index_row) = index_keys.next() {
        if !visits.take(1) {
            return Ok(None);
        }
        if let Some(segment) = wanted.shown(Some(index_row)) {
            share(&mut sorted, wanted.kind, segment)?;
        }
    }
    Ok(Some(sorted))
}

/// Puts the row of a type and a segment among others, which shares the segment.
fn share(rows: &mut RowMap, kind: SegType, segment: &Segment) -> Result<(), AllocError>
    ensures put { OnOk result (HasRowPut rows.old (kind, segment.now) rows.new) }
    ensures rising { OnOk result (IsRising rows.new) }
{
    rows.set(Row::new(kind, segment.try_clone()?))?;
    Ok(())
}

/// The answer over the rows of the type, which visits at most all rows.
pub(crate) fn shown_by_rows(
    alloc: Global,
    rows: &RowMap,
    wanted: Wanted,
    limit: usize,
    visits: &mut Visits,
) -> Result<Vec<Segment>, AllocError>
    ensures same { IfOk result (λ found. found.items ≡ segments_of (answer_to_wanted limit rows.now wanted)) }
    ensures memory { OnErr result (0 < length (answer_to_wanted limit rows.now wanted)) }
    ensures few { IfOk result (λ found. length found.items ≤ limit) }
    ensures whole { IfOk result (λ found. AllByRecursion IsSegment found.items) }
    ensures visited { visits.new.count ≤ visits.old.count + length rows.now }
{
    visits.allow(rows.len());
    match shown_of_type(alloc, rows, wanted, limit, visits)? {
        Some(found) => Ok(found),
        None => unreachable!(),
    }
}

/// The answer over the rows of the type, in the order of their keys. `None` means that not enough
/// of them may be visited.
fn shown_of_type(
    alloc: Global,
    rows: &RowMap,
    wanted: Wanted,
    limit: usize,
    visits: &mut Visits,
) -> Result<Option<Vec<Segment>>, AllocError>
    ensures same { IfOk result (λ it. IfSome it (λ found. found.items ≡ segments_of (answer_to_wanted limit rows.now wanted))) }
    ensures memory { OnErr result (0 < length (answer_to_wanted limit rows.now wanted)) }
    ensures few { IfOk result (λ it. IfSome it (λ found. length found.items ≤ limit)) }
    ensures whole { IfOk result (λ it. IfSome it (λ found. AllByRecursion IsSegment found.items)) }
    ensures ended { IfOk result (λ it. it ≡ None → visits.old.left < length rows.now) }
    ensures visited { visits.new.count ≤ visits.old.count + visits.old.left }
{
    first_shown(alloc, rows_of_type(rows, &wanted), wanted, limit, visits)
}

/// The rows of the type, those above the id where the lookup goes on after one.
fn rows_of_type<'a>(rows: &'a RowMap, wanted: &Wanted) -> RowRange<'a>
    ensures { result ≡ filter (is_of_type wanted.now.kind) (filter (is_past wanted.now.kind wanted.now.after) rows.now) }
{
    match &wanted.after {
        Some(id) => rows.of_type_after(wanted.kind, id),
        None => rows.of_type(wanted.kind),
    }
}
