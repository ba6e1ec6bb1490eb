//! Reading rows one after the other from pieces of their records, without keeping them.

ghost use Rattle.std.specs.Prelude.{◌≡◌, ◌≢◌, ◌≤◌, ◌<◌, ◌∷◌, ◌++◌, [], List, ℕ, length, drop, true, false, IfOk, IfErr, IfSome, IfNone, OnOk, OnErr, MatchOption, nat_lt, IsTrue, ◌↔◌};
ghost use Rattle.path_records.specs.declared.error.DbError.TheVariants.{NoMemory, BadRecord};
ghost use Rattle.row_map.specs.Database.{RowView};
ghost use Rattle.row_map.specs.Row.{row_view};
ghost use Rattle.path_records.specs.RowRecord.{has_row, row_size, HasOutline};
ghost use Rattle.path_records.specs.DatabaseReader.{AreRefused};
ghost use Rattle.path_records.specs.RowCursor.{HasGiven, IsNextRow, IsNoNextRow, IsRowTooLong, IsRowCutShort, is_above_key};

use crate::error::DbError;
use crate::key::Key;
use crate::row_records::{read_row, size_of_row};
use byte_lists::{drop_front, read_u32};
use row_map::{ROW_HEAD, Row};
use seg_core::MOST_SEGMENT_BYTES;
use std::alloc::{AllocError, Global};
use std::marker::Model;

/// Reads rows from pieces of their records, cut anywhere, and returns them one after the other. It
/// keeps the key of the last row that it returned, and the bytes after that row. Once all whole
/// rows are returned, these are fewer than 16,389 bytes, the length of the greatest record.
#[derive(Drop)]
pub struct RowCursor {
    alloc: Global,
    last: Option<Key>,
    rest: Vec<u8>,
    at: usize,
}

impl Model for RowCursor {
    ghost use Rattle.path_records.specs.RowCursor.{CursorView, cursor_view, IsCursor};

    ghost Value = { CursorView };

    ghost view = { cursor_view };

    ghost invariant = { IsCursor };
}

impl RowCursor {
    /// A cursor before the first piece. The call takes no memory.
    pub fn new(alloc: Global) -> RowCursor
        ensures { HasGiven [] [] result }
    {
        RowCursor {
            alloc,
            last: None,
            rest: Vec::new(alloc),
            at: 0,
        }
    }

    /// Adds the next piece. An empty piece takes no memory. Where memory is refused, the cursor is
    /// unchanged.
    pub fn push(&mut self, piece: &[u8]) -> Result<(), AllocError>
        ensures fed { OnOk result ((fed : List ℕ) (given : List RowView) → HasGiven fed given self.old → HasGiven (fed ++ piece.now) given self.new) }
        ensures rest { OnOk result (self.new.rest ≡ self.old.rest ++ piece.now) }
        ensures refused { OnErr result (self.new ≡ self.old) }
        ensures memory { OnErr result (0 < length piece.now) }
    {
        if piece.is_empty() {
            return Ok(());
        }
        let count = self.at;
        self.at = 0;
        drop_front(&mut self.rest, count);
        self.rest.extend_from_slice(piece)?;
        Ok(())
    }

    /// The next row, where its whole record is there; `None` where it is not. Bytes that are no
    /// record are `BadRecord`, as is a segment of more than 16,384 bytes as soon as its length is
    /// there. A row whose key is not strictly above the key of the row before is `Order`. The
    /// refusal does not depend on later bytes. The call takes memory only where the row's segment
    /// has an outline. After an error the cursor is unchanged.
    pub fn next(&mut self) -> Result<Option<Row>, DbError>
        ensures row { IfOk result (λ next. MatchOption next ((self.new ≡ self.old) × (has_row self.old.rest ≡ false))
            (λ row. (fed : List ℕ) (given : List RowView) → HasGiven fed given self.old → HasGiven fed (given ++ row_view row ∷ []) self.new)) }
        ensures fewer { IfOk result (λ next. IfSome next (λ _. length self.new.rest < length self.old.rest)) }
        ensures short { IfOk result (λ next. IfNone next (length self.new.rest < 16389)) }
        ensures refused { IfErr result (λ e. e ≢ NoMemory → (fed : List ℕ) (given : List RowView) → HasGiven fed given self.old → AreRefused fed e) }
        ensures kept { OnErr result (self.new ≡ self.old) }
        ensures memory { IfErr result (λ e. e ≡ NoMemory → HasOutline self.old.rest) }
    {
        let left = bytes_from(&self.rest, self.at);
        match next_of(self.alloc, &self.last, left)? {
            Some((row, size)) => {
                self.last = Some(Key::of_row(&row));
                self.at += size;
                Ok(Some(row))
            }
            None => Ok(None),
        }
    }

    /// Whether bytes are left after the rows that were returned.
    pub fn has_rest(&self) -> bool
        ensures { result ≡ nat_lt 0 (length self.now.rest) }
    {
        self.at < self.rest.len()
    }
}

/// The bytes from an index on.
fn bytes_from(bytes: &[u8], at: usize) -> &[u8]
    requires { at ≤ length bytes.now }
    ensures { result.now ≡ drop at bytes.now }
{
    &bytes[at..]
}

/// The row at the front of the bytes, after a row with this key, and the length of its record.
/// `None` where the record is not whole.
fn next_of(alloc: Global, last: &Option<Key>, left: &[u8]) -> Result<Option<(Row, usize)>, DbError>
    ensures row { IfOk result (λ next. MatchOption next (IsRowCutShort left.now) (λ found. IsNextRow left.now last.now (row_view found.0) found.1)) }
    ensures refused { IfErr result (λ e. e ≢ NoMemory → IsNoNextRow left.now last.now e) }
    ensures memory { IfErr result (λ e. e ≡ NoMemory → HasOutline left.now) }
{
    let Some(size) = size_of_next(left)? else {
        return Ok(None);
    };
    let ((kind, segment), _after) = read_row(alloc, left)?;
    let row = Row::new(kind, segment);
    if !is_above(last, &row) {
        return Err(DbError::Order);
    }
    Ok(Some((row, size)))
}

/// The length of the record at the front, or `None` where the record is not whole. A segment of
/// more than 16,384 bytes is refused.
fn size_of_next(left: &[u8]) -> Result<Option<usize>, DbError>
    ensures size { IfOk result (λ size. MatchOption size (IsRowCutShort left.now)
        (λ size. (has_row left.now ≡ true) × (size ≡ row_size left.now) × (size ≤ length left.now))) }
    ensures refused { IfErr result (λ e. (e ≡ BadRecord) × IsRowTooLong left.now) }
{
    if is_too_long(left) {
        return Err(DbError::BadRecord);
    }
    Ok(size_of_row(left).ok())
}

/// Whether the length of the record's segment is there, and is above 16,384 bytes.
fn is_too_long(left: &[u8]) -> bool
    ensures { IsTrue result ↔ IsRowTooLong left.now }
{
    left.len() >= ROW_HEAD && read_u32(left, 1) as usize > MOST_SEGMENT_BYTES
}

/// Whether there is no key, or the row's key is strictly above it.
fn is_above(last: &Option<Key>, row: &Row) -> bool
    ensures { result ≡ is_above_key last.now (row_view row.now) }
{
    match last {
        Some(key) => key.order(&Key::of_row(row)).is_lt(),
        None => true,
    }
}
