//! Puts into a map of rows.

ghost use Rattle.std.specs.Prelude.{◌≡◌, ◌+◌, ◌<◌, ◌≤◌, map, IfOk, OnOk, OnErr, length};
ghost use Rattle.std.specs.Option.{option_map};
ghost use Rattle.row_map.specs.Database.{IsRising, AreWhole, key_of, row_under, row_len, rows_len};
ghost use Rattle.row_map.specs.Put.{database_after_put, change_of};
ghost use Rattle.row_map.specs.Row.{row_view, row_views};
ghost use Rattle.row_map.specs.Saved.{saved_view, wins, PutsBack, RestoresFrom};

use crate::change::Change;
use crate::row::Row;
use crate::row_map::RowMap;
use seg_core::{SegType, Segment};
use std::alloc::{AllocError, Global};

/// The rows of these segments, in their order. The segments are shared.
pub fn rows_of(alloc: Global, new: &[(SegType, Segment)]) -> Result<Vec<Row>, AllocError>
    ensures same { IfOk result (λ rows. row_views rows.items ≡ new.now) }
    ensures whole { IfOk result (λ rows. AreWhole (row_views rows.items)) }
    ensures memory { OnErr result (0 < length new.now) }
{
    let mut rows = Vec::with_capacity(alloc, new.len())?;
    for (kind, segment) in new {
        rows.push(Row::new(*kind, segment.try_clone()?))?;
    }
    Ok(rows)
}

/// A key, and the row that was under it.
#[derive(Drop)]
pub struct Saved {
    pub kind: SegType,
    pub id: [u8; 32],
    pub row: Option<Row>,
}

/// The rows under the keys of new rows, in their order.
pub fn saved_rows(alloc: Global, rows: &RowMap, new: &[Row]) -> Result<Vec<Saved>, AllocError>
    ensures each { IfOk result (λ saved. map saved_view saved.items ≡ map (λ row. (key_of row, row_under (key_of row) rows.now)) (row_views new.now)) }
    ensures memory { OnErr result (0 < length new.now) }
{
    let mut saved = Vec::with_capacity(alloc, new.len())?;
    for row in new {
        saved.push(Saved {
            kind: row.kind,
            id: *row.id(),
            row: copy_of(rows, row)?,
        })?;
    }
    Ok(saved)
}

/// A copy of the row under the key of a row. `None` where there is none.
fn copy_of(rows: &RowMap, row: &Row) -> Result<Option<Row>, AllocError>
    ensures { IfOk result (λ old. option_map row_view old ≡ row_under (key_of (row_view row.now)) rows.now) }
{
    match rows.get(row.kind, row.id()) {
        Some(old) => Ok(Some(old.try_clone()?)),
        None => Ok(None),
    }
}

/// Puts back the rows that were under keys. This takes no memory, since a row is there now under
/// each key that had one.
pub fn restore(rows: &mut RowMap, saved: Vec<Saved>)
    ensures { RestoresFrom (map saved_view saved.items) rows.old rows.new }
{
    let mut saved = saved;
    while let Some(old) = saved.pop() {
        put_back(rows, old);
    }
}

/// Puts back the row that was under one key.
fn put_back(rows: &mut RowMap, old: Saved)
    ensures back { PutsBack (saved_view old) rows.old rows.new }
    ensures rising { IsRising rows.new }
{
    match old.row {
        Some(row) => {
            let _ = rows.set(row);
        }
        None => {
            rows.remove(old.kind, &old.id);
        }
    }
}

/// Puts a row.
pub fn put_row(rows: &mut RowMap, bytes: &mut u128, row: Row) -> Result<Change, AllocError>
    requires { bytes.old ≡ rows_len rows.old }
    ensures rows { OnOk result (rows.new ≡ database_after_put rows.old (row_view row)) }
    ensures change { IfOk result (λ change. change ≡ change_of rows.old (row_view row)) }
    ensures bytes { OnOk result (bytes.new ≡ rows_len rows.new) }
    ensures more { OnOk result (bytes.new ≤ bytes.old + row_len (row_view row)) }
    ensures err { OnErr result (rows.new ≡ rows.old) }
    ensures same { OnErr result (bytes.new ≡ bytes.old) }
{
    if !wins(rows, &row) {
        return Ok(Change::Kept);
    }
    let _count = rows.len();
    let added = u128::from(row.len());
    let old = rows.set(row)?;
    *bytes += added;
    match old {
        Some(old) => {
            *bytes -= u128::from(old.len());
            Ok(Change::Updated)
        }
        None => Ok(Change::Inserted),
    }
}

/// Whether there is no row under the key of this one, or an older one.
fn wins(rows: &RowMap, row: &Row) -> bool
    ensures same { result ≡ wins (row_view row.now) (row_under (key_of (row_view row.now)) rows.now) }
    ensures rising { IsRising rows.now }
{
    match rows.get(row.kind, row.id()) {
        Some(old) => old.segment.timestamp() < row.segment.timestamp(),
        None => true,
    }
}
