//! Renewals of rows, with the indexes that have them.

ghost use Rattle.std.specs.Prelude.{◌≡◌, ◌≢◌, ◌+◌, ◌≤◌, None, true, false, IfSome};
ghost use Rattle.std.specs.Option.{ForSome};
ghost use Rattle.row_map.specs.declared.end.End.TheVariants.{First, Last};
ghost use Rattle.row_map.specs.declared.end.By.TheVariants.{OneEnd, BothEnds};
ghost use Rattle.row_map.specs.declared.change.Change.TheVariants.{Updated};
ghost use Rattle.row_map.specs.Database.{IsRising, row_len, rows_len};
ghost use Rattle.row_map.specs.Put.{database_after_put, change_of};
ghost use Rattle.row_map.specs.Row.{row_view};
ghost use Rattle.row_map.specs.EndKeys.{index_number, IsRowIndex, IsRowOf};

use row_map::{By, Change, End, EndIndex, IndexRow, Row, RowMap, index_row_of};

/// Replaces an older row under the same key and with the same ends, or keeps one that is as new,
/// and has the indexes have the row that is left. Returns which of both was done. This takes no
/// memory. `None` means that there is no such row, or that 2^63 rows share the segment already, and
/// nothing changed. `bytes` counts the bytes of all rows.
pub(crate) fn renew_indexed(
    rows: &mut RowMap,
    bytes: &mut u128,
    by_first: &mut EndIndex,
    by_last: &mut EndIndex,
    by_isds: &mut EndIndex,
    row: Row,
) -> Option<Change>
    requires counted { bytes.old ≡ rows_len rows.old }
    requires rising { IsRising rows.old }
    requires first { IsRowIndex (index_number (OneEnd First)) rows.old by_first.old }
    requires last { IsRowIndex (index_number (OneEnd Last)) rows.old by_last.old }
    requires isds { IsRowIndex (index_number BothEnds) rows.old by_isds.old }
    ensures rows { ForSome result (λ _. rows.new ≡ database_after_put rows.old (row_view row)) }
    ensures change { ForSome result (λ change. change ≡ change_of rows.old (row_view row)) }
    ensures bytes { bytes.new ≡ rows_len rows.new }
    ensures more { bytes.new ≤ bytes.old + row_len (row_view row) }
    ensures first { ForSome result (λ _. IsRowIndex (index_number (OneEnd First)) rows.new by_first.new) }
    ensures last { ForSome result (λ _. IsRowIndex (index_number (OneEnd Last)) rows.new by_last.new) }
    ensures isds { ForSome result (λ _. IsRowIndex (index_number BothEnds) rows.new by_isds.new) }
    ensures none { result ≡ None → rows.new ≡ rows.old }
    ensures none_first { result ≡ None → by_first.new ≡ by_first.old }
    ensures none_last { result ≡ None → by_last.new ≡ by_last.old }
    ensures none_isds { result ≡ None → by_isds.new ≡ by_isds.old }
{
    let (first, last, isds) = index_rows_of(&row)?;
    let change = rows.renew(bytes, row)?;
    if is_updated(change) {
        by_first.renew(first);
        by_last.renew(last);
        by_isds.renew(isds);
    }
    Some(change)
}

/// Whether a put replaced a row.
fn is_updated(change: Change) -> bool
    ensures yes { result ≡ true → change ≡ Updated }
    ensures no { result ≡ false → change ≢ Updated }
{
    match change {
        Change::Updated => true,
        Change::Inserted => false,
        Change::Kept => false,
    }
}

/// The index rows of a row by its first ISD-AS, by its last one and by its ISDs. `None` means that
/// 2^63 rows share the segment already.
fn index_rows_of(row: &Row) -> Option<(IndexRow, IndexRow, IndexRow)>
    ensures first { IfSome result (λ index_rows. IsRowOf (index_number (OneEnd First)) index_rows.0 (row_view row.now)) }
    ensures last { IfSome result (λ index_rows. IsRowOf (index_number (OneEnd Last)) index_rows.1 (row_view row.now)) }
    ensures isds { IfSome result (λ index_rows. IsRowOf (index_number BothEnds) index_rows.2 (row_view row.now)) }
{
    let first = index_row_of(By::OneEnd(End::First), row).ok()?;
    let last = index_row_of(By::OneEnd(End::Last), row).ok()?;
    let isds = index_row_of(By::BothEnds, row).ok()?;
    Some((first, last, isds))
}
