//! Reading rows in threads.

ghost use Rattle.std.specs.Prelude.{◌≡◌, ◌≢◌, ◌≤◌, [], ◌++◌, true, length, IfSome, IfOk, IfErr};
ghost use Rattle.path_records.specs.declared.error.DbError.TheVariants.{NoMemory};
ghost use Rattle.row_map.specs.Database.{IsDatabase};
ghost use Rattle.row_map.specs.Row.{row_views};
ghost use Rattle.path_records.specs.RowRecord.{rows_encoding};
ghost use Rattle.path_records.specs.DatabaseReader.{AreRowsOf, AreRefused, AreReadOn};

use crate::error::DbError;
use crate::row_decoder::read_on;
use crate::row_records::{is_above_last, size_of_row};
use row_map::Row;
use std::alloc::Global;
use std::thread::{Threads, join};

/// Reads the whole rows at the front of the bytes in up to four threads, the calling one among
/// them, as `RowDecoder` says. Where no thread can be made, the calling thread reads its rows too.
/// Bytes that one of the threads refuses are read again on the calling thread alone, so that the
/// refusal is that of `OneThread`.
pub fn read_in_threads<R: Threads + Sync>(
    rt: &R,
    alloc: Global,
    rows: Vec<Row>,
    bytes: &[u8],
) -> Result<(Vec<Row>, usize), DbError>
    requires { IsDatabase (row_views rows.items) }
    ensures read { IfOk result (λ read. AreReadOn (row_views rows.items) (row_views read.0.items) bytes.now read.1) }
    ensures refused { IfErr result (λ e. e ≢ NoMemory → AreRefused (rows_encoding (row_views rows.items) ++ bytes.now) e) }
{
    let Some((mut more, taken)) = read_by_four(rt, alloc, bytes) else {
        return read_on(alloc, rows, bytes);
    };
    if !are_above(&rows, &more) {
        return read_on(alloc, rows, bytes);
    }
    let mut rows = rows;
    rows.append(&mut more)?;
    Ok((rows, taken))
}

/// The whole rows at the front of the bytes, read by four threads, and how many bytes their records
/// have; `None` where the bytes are refused, or memory is. The length fields of three quarters of
/// the rows are read once before, to find where rows end.
fn read_by_four<R: Threads + Sync>(rt: &R, alloc: Global, bytes: &[u8]) -> Option<(Vec<Row>, usize)>
    ensures { IfSome result (λ read. AreReadOn [] (row_views read.0.items) bytes.now read.1) }
{
    let quarter = bytes.len() / 4;
    let (first, behind) = bytes.split_at(rows_of_len(bytes, quarter));
    let (second, behind) = behind.split_at(rows_of_len(behind, quarter));
    let (third, last) = behind.split_at(rows_of_len(behind, quarter));
    let (front, back) = join(
        rt,
        || read_by_two(rt, alloc, first, second),
        || read_by_two(rt, alloc, third, last),
    );
    let (front, whole) = front?;
    if whole < first.len() + second.len() {
        return None;
    }
    let (back, taken) = back?;
    Some((joined(front, back)?, whole + taken))
}

/// The whole rows at the front of two slices, one after the other, read by two threads, and how
/// many bytes their records have; `None` where the bytes are refused, or memory is, or a row of the
/// first slice does not end in it.
fn read_by_two<R: Threads + Sync>(
    rt: &R,
    alloc: Global,
    low: &[u8],
    high: &[u8],
) -> Option<(Vec<Row>, usize)>
    ensures { IfSome result (λ read. AreReadOn [] (row_views read.0.items) (low.now ++ high.now) read.1) }
{
    let (front, back) = join(rt, || read_all(alloc, low), || read_first(alloc, high));
    let (back, taken) = back?;
    Some((joined(front?, back)?, low.len() + taken))
}

/// The length of the first rows, which have at least this many bytes, or of all whole rows.
fn rows_of_len(bytes: &[u8], least: usize) -> usize
    ensures { result ≤ length bytes.now }
{
    let mut at = 0;
    while at < least {
        let Ok(size) = size_of_row(&bytes[at..]) else {
            return at;
        };
        at += size;
    }
    at
}

/// The whole rows at the front of the bytes, and how many bytes their records have; `None` where
/// the bytes are refused, or memory is.
fn read_first(alloc: Global, bytes: &[u8]) -> Option<(Vec<Row>, usize)>
    ensures { IfSome result (λ read. AreReadOn [] (row_views read.0.items) bytes.now read.1) }
{
    read_on(alloc, Vec::new(alloc), bytes).ok()
}

/// The rows of all of the bytes; `None` where the bytes are refused, or memory is.
fn read_all(alloc: Global, bytes: &[u8]) -> Option<Vec<Row>>
    ensures { IfSome result (λ rows. AreRowsOf (row_views rows.items) bytes.now) }
{
    let (rows, taken) = read_first(alloc, bytes)?;
    if taken < bytes.len() {
        return None;
    }
    Some(rows)
}

/// The rows of both lists; `None` where not all of their keys rise, or memory is refused.
fn joined(front: Vec<Row>, back: Vec<Row>) -> Option<Vec<Row>>
    requires front { IsDatabase (row_views front.items) }
    requires back { IsDatabase (row_views back.items) }
    ensures database { IfSome result (λ rows. IsDatabase (row_views rows.items)) }
    ensures same { IfSome result (λ rows. rows.items ≡ front.items ++ back.items) }
{
    if !are_above(&front, &back) {
        return None;
    }
    let (mut rows, mut more) = (front, back);
    rows.append(&mut more).ok()?;
    Some(rows)
}

/// Whether the keys of the later rows are above those of the earlier ones. In both lists the keys
/// rise.
fn are_above(rows: &[Row], more: &[Row]) -> bool
    requires rows { IsDatabase (row_views rows.now) }
    requires more { IsDatabase (row_views more.now) }
    ensures { result ≡ true → IsDatabase (row_views rows.now ++ row_views more.now) }
{
    match more.first() {
        Some(first) => is_above_last(rows, first),
        None => true,
    }
}
