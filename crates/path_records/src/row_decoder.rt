//! Ways to read the whole rows at the front of bytes.

ghost use Rattle.std.specs.Prelude.{◌≡◌, ◌≢◌, ◌++◌, ⊤, IfOk, IfErr};
ghost use Rattle.path_records.specs.declared.error.DbError.TheVariants.{NoMemory};
ghost use Rattle.row_map.specs.Database.{IsDatabase};
ghost use Rattle.row_map.specs.Row.{row_views};
ghost use Rattle.path_records.specs.RowRecord.{rows_encoding, has_row};
ghost use Rattle.path_records.specs.DatabaseReader.{AreRefused, AreReadOn};

use crate::error::DbError;
use crate::row_records::{is_above_last, read_row, size_of_row};
use row_map::Row;
use std::alloc::Global;

/// A way to read the whole rows at the front of bytes. All ways return the same rows and refuse the
/// same bytes.
pub trait RowDecoder {
    /// This way may be used.
    ghost is_ready: { Self → Type 0 };

    /// Reads the whole rows at the front of the bytes, after the rows before, and returns all rows
    /// and how many bytes the records of the new ones have. A refusal does not depend on the bytes
    /// after these.
    fn read_on(
        &self,
        alloc: Global,
        rows: Vec<Row>,
        bytes: &[u8],
    ) -> Result<(Vec<Row>, usize), DbError>
        requires ready { is_ready self.now }
        requires rows { IsDatabase (row_views rows.items) }
        ensures read { IfOk result (λ read. AreReadOn (row_views rows.items) (row_views read.0.items) bytes.now read.1) }
        ensures refused { IfErr result (λ e. e ≢ NoMemory → AreRefused (rows_encoding (row_views rows.items) ++ bytes.now) e) };
}

/// Reads rows on the calling thread.
#[derive(Clone, Copy, Debug)]
pub struct OneThread;

impl RowDecoder for OneThread {
    ghost is_ready = { λ _. ⊤ };

    fn read_on(
        &self,
        alloc: Global,
        rows: Vec<Row>,
        bytes: &[u8],
    ) -> Result<(Vec<Row>, usize), DbError> {
        read_on(alloc, rows, bytes)
    }
}

/// Reads rows by a closure, which reads as `read_on` does.
#[derive(Drop)]
pub struct ByCall<F> {
    pub read: F,
}

impl<F: Fn(Global, Vec<Row>, &[u8]) -> Result<(Vec<Row>, usize), DbError>> RowDecoder
    for ByCall<F> {
    ghost use Rattle.path_records.specs.RowDecoder.{ReadsRows};

    ghost is_ready = { λ by. ReadsRows F.Fn by.read };

    fn read_on(
        &self,
        alloc: Global,
        rows: Vec<Row>,
        bytes: &[u8],
    ) -> Result<(Vec<Row>, usize), DbError> {
        (self.read)(alloc, rows, bytes)
    }
}

/// Reads the whole rows at the front of the bytes, after the rows before, and returns how many
/// bytes their records have.
pub(crate) fn read_on(
    alloc: Global,
    rows: Vec<Row>,
    bytes: &[u8],
) -> Result<(Vec<Row>, usize), DbError>
    requires { IsDatabase (row_views rows.items) }
    ensures read { IfOk result (λ read. AreReadOn (row_views rows.items) (row_views read.0.items) bytes.now read.1) }
    ensures refused { IfErr result (λ e. e ≢ NoMemory → AreRefused (rows_encoding (row_views rows.items) ++ bytes.now) e) }
{
    let mut rows = rows;
    let mut left = bytes;
    while has_whole_row(left) {
        let ((kind, segment), behind) = read_row(alloc, left)?;
        let row = Row::new(kind, segment);
        if !is_above_last(&rows, &row) {
            return Err(DbError::Order);
        }
        rows.push(row)?;
        left = behind;
    }
    Ok((rows, bytes.len() - left.len()))
}

/// Whether the record at the front is whole.
fn has_whole_row(bytes: &[u8]) -> bool
    ensures { result ≡ has_row bytes.now }
{
    size_of_row(bytes).is_ok()
}
