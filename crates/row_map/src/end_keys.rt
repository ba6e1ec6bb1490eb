//! The rows by the ISD-AS at one of their ends, or by the ISDs at both.

ghost use Rattle.std.specs.Prelude.{◌≡◌, ℕ, [], ◌∷◌, ◌++◌, if◌then◌else◌, map, ◌⊎◌, ◌^◌, ◌<◌, true, false, Option, Some, List, length, is_some, IfOk, IfSome, OnOk, OnErr};
ghost use Rattle.std.specs.List.{AllByRecursion};
ghost use Rattle.std.specs.Option.{option_map};
ghost use Rattle.seg_core.specs.SegmentView.{EntryView};
ghost use Rattle.row_map.specs.IndexKey.{IndexKey, has, is_same};
ghost use Rattle.row_map.specs.declared.end.By.{By};
ghost use Rattle.row_map.specs.declared.end.By.TheVariants.{OneEnd};
ghost use Rattle.row_map.specs.Database.{RowView, row_under};
ghost use Rattle.row_map.specs.Row.{row_view, row_views};
ghost use Rattle.row_map.specs.RowMap.{indexed_key};
ghost use Rattle.row_map.specs.Saved.{saved_view};
ghost use Rattle.row_map.specs.EndKeys.{index_number, is_of, isds_number, stands, EndAlike, IsSeenTo, AreSeenTo, IsRowIndex, IsRowOf, HasRow, IsCovered, IsIndexGrown, HasAll, IsTakenOut};

use crate::end::{By, End};
use crate::index::EndIndex;
use crate::index_row::IndexRow;
use crate::row::Row;
use crate::row_map::RowMap;
use crate::row_puts::Saved;
use std::alloc::{AllocError, Global};

/// The index row of a row by this, which shares the segment. An error means that 2^63 rows share it
/// already.
pub fn index_row_of(by: By, row: &Row) -> Result<IndexRow, AllocError>
    ensures { IfOk result (λ index_row. IsRowOf (index_number by) index_row (row_view row.now)) }
{
    let number = number_of(by, row);
    Ok(IndexRow::new(row.kind, number, row.segment.try_clone()?))
}

/// The number by which an index has a row.
fn number_of(by: By, row: &Row) -> u64
    ensures { is_of (index_number by (row_view row.now).1.entries) result ≡ true }
{
    match by {
        By::OneEnd(end) => isd_as_at(end, row),
        By::BothEnds => isds_number(isd_as_at(End::First, row), isd_as_at(End::Last, row)),
    }
}

/// The ISD-AS at this end of a row, as 64 bits.
fn isd_as_at(end: End, row: &Row) -> u64
    ensures { is_of (index_number (OneEnd end) (row_view row.now).1.entries) result ≡ true }
{
    let entries = row.segment.entries();
    match end {
        End::First => entries[0].ia.to_u64(),
        End::Last => entries[entries.len() - 1].ia.to_u64(),
    }
}

/// The ISDs of two ISD-ASes, which have 64 bits each. The first one's is in the upper 16 of 32
/// bits.
pub fn isds_number(first: u64, last: u64) -> u64
    ensures same { result ≡ isds_number first last }
    ensures short { result < 2 ^ 32 }
{
    const AS_NUMBERS: u64 = 1 << 48;
    first / AS_NUMBERS * (1 << 16) + last / AS_NUMBERS
}

/// The index of all rows of a map, by this.
pub fn index_of(alloc: Global, by: By, rows: &RowMap) -> Result<EndIndex, AllocError>
    ensures { IfOk result (λ index. IsRowIndex (index_number by) rows.now index) }
{
    let mut index_rows = index_rows_of(alloc, by, rows)?;
    index_rows.sort_unstable();
    index_with(alloc, index_rows)
}

/// The index rows of all rows of a map, by this.
fn index_rows_of(alloc: Global, by: By, rows: &RowMap) -> Result<Vec<IndexRow>, AllocError>
    ensures { IfOk result (λ index_rows. IsRowIndex (index_number by) rows.now index_rows.items) }
{
    let mut index_rows = Vec::with_capacity(alloc, rows.len())?;
    for row in rows.rows() {
        index_rows.push(index_row_of(by, row)?)?;
    }
    Ok(index_rows)
}

/// The index of index rows. Where these are in their order, the leaves of its tree are full: every
/// second one is added first and leaves half of each leaf empty, and the others then fill it.
fn index_with(alloc: Global, index_rows: Vec<IndexRow>) -> Result<EndIndex, AllocError>
    ensures { IfOk result (λ index. (end : List EntryView → Option ℕ) (rows : List RowView)
        → IsRowIndex end rows index_rows.items → IsRowIndex end rows index) }
{
    let mut left = index_rows;
    let mut index = EndIndex::new(alloc);
    let mut others = Vec::with_capacity(alloc, left.len() / 2)?;
    while let Some(index_row) = left.pop() {
        if left.len() % 2 == 0 {
            index.add(index_row)?;
        } else {
            others.push(index_row)?;
        }
    }
    while let Some(other) = others.pop() {
        index.add(other)?;
    }
    Ok(index)
}

/// The index rows of new rows and of the rows that were under their keys.
pub fn touched_rows(
    alloc: Global,
    by: By,
    new: &[Row],
    saved: &[Saved],
) -> Result<Vec<IndexRow>, AllocError>
    requires { length saved.now ≡ length new.now }
    ensures seen { IfOk result (λ touched. AreSeenTo (index_number by) touched.items (row_views new.now) (map saved_view saved.now)) }
    ensures rows { IfOk result (λ touched. AllByRecursion HasRow touched.items) }
    ensures memory { OnErr result (0 < length new.now) }
{
    let mut touched = Vec::new(alloc);
    for (k, old) in saved.iter().enumerate() {
        touch(&mut touched, by, &new[k], &old.row)?;
    }
    Ok(touched)
}

/// Appends the index row of a new row, and that of the row that was under its key, unless both have
/// the same index key.
fn touch(
    touched: &mut Vec<IndexRow>,
    by: By,
    new: &Row,
    stood: &Option<Row>,
) -> Result<(), AllocError>
    ensures kept { OnOk result ((q : IndexKey) → has touched.old.items q ≡ true → has touched.new.items q ≡ true) }
    ensures seen { OnOk result (IsSeenTo (index_number by) touched.new.items (row_view new.now) (option_map row_view stood.now)) }
    ensures rows { OnOk result (AllByRecursion HasRow touched.old.items → AllByRecursion HasRow touched.new.items) }
{
    let index_row = index_row_of(by, new)?;
    if let Some(row) = stood {
        push_other(touched, index_row_of(by, row)?, &index_row)?;
    }
    touched.push(index_row)?;
    Ok(())
}

/// Appends an index row, unless it has the index key of this one.
fn push_other(
    touched: &mut Vec<IndexRow>,
    other: IndexRow,
    index_row: &IndexRow,
) -> Result<(), AllocError>
    ensures kept { OnOk result ((q : IndexKey) → has touched.old.items q ≡ true → has touched.new.items q ≡ true) }
    ensures other { OnOk result (touched.new.items ≡ (if is_same other index_row.now then touched.old.items else touched.old.items ++ other ∷ [])) }
    ensures rows { OnOk result (HasRow other → AllByRecursion HasRow touched.old.items → AllByRecursion HasRow touched.new.items) }
{
    if other.cmp(index_row).is_eq() {
        return Ok(());
    }
    touched.push(other)?;
    Ok(())
}

/// Whether two rows have the same ISD-AS numbers at both ends.
pub(crate) fn keeps_keys(new: &Row, old: &Row) -> bool
    ensures yes { result ≡ true → (by : By) → EndAlike (index_number by) (row_view new.now) (row_view old.now) }
    ensures no { result ≡ false → ¬ ((by : By) → EndAlike (index_number by) (row_view new.now) (row_view old.now)) }
{
    ends_alike(End::First, new, old) && ends_alike(End::Last, new, old)
}

/// Whether two rows have the same ISD-AS at this end.
fn ends_alike(end: End, new: &Row, old: &Row) -> bool
    ensures yes { result ≡ true → EndAlike (index_number (OneEnd end)) (row_view new.now) (row_view old.now) }
    ensures no { result ≡ false → ¬ EndAlike (index_number (OneEnd end)) (row_view new.now) (row_view old.now) }
{
    isd_as_at(end, new) == isd_as_at(end, old)
}

/// Adds rows. Where memory is refused, some of them are added.
pub(crate) fn add_rows(index: &mut EndIndex, touched: &[IndexRow]) -> Result<(), AllocError>
    ensures grown { IsIndexGrown touched.now index.old index.new }
    ensures ok { OnOk result (HasAll touched.now index.new) }
    ensures memory { OnErr result (0 < length touched.now) }
{
    for index_row in touched {
        index.add(index_row.try_clone()?)?;
    }
    Ok(())
}

/// Adds rows to three indexes. Where memory is refused, some of them are added.
pub fn add_all(
    by_first: &mut EndIndex,
    firsts: &[IndexRow],
    by_last: &mut EndIndex,
    lasts: &[IndexRow],
    by_isds: &mut EndIndex,
    isds: &[IndexRow],
) -> Result<(), AllocError>
    ensures first { IsIndexGrown firsts.now by_first.old by_first.new }
    ensures last { IsIndexGrown lasts.now by_last.old by_last.new }
    ensures isds { IsIndexGrown isds.now by_isds.old by_isds.new }
    ensures all_first { OnOk result (HasAll firsts.now by_first.new) }
    ensures all_last { OnOk result (HasAll lasts.now by_last.new) }
    ensures all_isds { OnOk result (HasAll isds.now by_isds.new) }
    ensures memory { OnErr result ((0 < length firsts.now) ⊎ (0 < length lasts.now) ⊎ (0 < length isds.now)) }
{
    add_rows(by_first, firsts)?;
    add_rows(by_last, lasts)?;
    add_rows(by_isds, isds)
}

/// Makes an index have the rows as the map has them: removes the touched rows that the map does not
/// have, and replaces the others. This takes no memory. `false` means that 2^63 rows share a
/// segment already, and then the index can't be used any more.
pub fn sweep(by: By, index: &mut EndIndex, rows: &RowMap, touched: &[IndexRow]) -> bool
    requires covered { IsCovered (index_number by) rows.now touched.now index.old }
    requires rows { AllByRecursion HasRow touched.now }
    ensures { result ≡ true → IsRowIndex (index_number by) rows.now index.new }
{
    for index_row in touched {
        if !settle(by, index, rows, index_row) {
            return false;
        }
    }
    true
}

/// The same for one touched row.
fn settle(by: By, index: &mut EndIndex, rows: &RowMap, index_row: &IndexRow) -> bool
    requires { HasRow index_row.now }
    ensures { result ≡ true → (rest : List IndexKey)
        → IsCovered (index_number by) rows.now (index_row.now ∷ rest) index.old → IsCovered (index_number by) rows.now rest index.new }
{
    let Some(row) = standing(by, rows, index_row) else {
        index.remove(index_row);
        return true;
    };
    match index_row_of(by, row) {
        Ok(now) => {
            index.renew(now);
            true
        }
        Err(_) => false,
    }
}

/// The row of an index key. `None` where the index key is that of no row.
fn standing<'a>(by: By, rows: &'a RowMap, index_row: &IndexRow) -> Option<&'a Row>
    requires { HasRow index_row.now }
    ensures some { IfSome result (λ row. row_under (indexed_key index_row.now) rows.now ≡ Some (row_view row.now)) }
    ensures stands { is_some result ≡ stands (index_number by) rows.now index_row.now }
{
    let row = rows.at(index_row)?;
    if number_of(by, row) == index_row.number() {
        return Some(row);
    }
    None
}

/// Removes a row from an index. This takes no memory. `false` means that 2^63 rows share the
/// segment already, and then the index can't be used any more.
pub fn take_out(by: By, index: &mut EndIndex, row: &Row) -> bool
    ensures { result ≡ true → IsTakenOut (index_number by) (row_view row.now) index.old index.new }
{
    match index_row_of(by, row) {
        Ok(index_row) => {
            index.remove(&index_row);
            true
        }
        Err(_) => false,
    }
}
