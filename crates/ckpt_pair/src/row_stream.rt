//! The rows of a checkpoint as a stream: read one after the other from pieces of their bytes, and
//! not kept.

ghost use Rattle.std.specs.Prelude.{◌≡◌, ◌≢◌, ◌+◌, ◌≤◌, ◌<◌, ◌∷◌, ◌++◌, [], List, ℕ, length, take, IfOk, IfErr, IfSome, IfNone, OnOk, OnErr, Some, None, false};
ghost use Rattle.row_map.specs.Database.{RowView};
ghost use Rattle.row_map.specs.Row.{row_view};
ghost use Rattle.path_records.specs.RowRecord.{rows_decoding, has_row, HasOutline};
ghost use Rattle.path_records.specs.RowCursor.{HasGiven};
ghost use Rattle.ckpt_pair.specs.declared.error.PairError.TheVariants.{NoMemory, BadCheckpoint};
ghost use Rattle.ckpt_pair.specs.Rows.{as_counted};
ghost use Rattle.ckpt_pair.specs.Stream.{HasStreamed, AreNoStreamedRows, IsRefusedCursor};

use crate::error::PairError;
use path_records::{DbError, RowCursor};
use row_map::Row;
use std::alloc::{AllocError, Global};
use std::marker::Model;

/// Returns the rows of a checkpoint one after the other, from pieces of their bytes, cut anywhere.
/// It keeps the bytes that were pushed after the last row that it returned. Once all whole rows are
/// returned, these are fewer than 16,389.
#[derive(Drop)]
pub struct RowStream {
    cursor: RowCursor,
    bytes: u32,
    rows: u32,
}

impl Model for RowStream {
    ghost use Rattle.ckpt_pair.specs.Stream.{StreamView, stream_view};

    ghost Value = { StreamView };

    ghost view = { stream_view };
}

impl RowStream {
    /// A stream before the first piece, of `count` rows in `length` bytes, as in the front of a
    /// checkpoint. The call takes no memory.
    pub fn new(alloc: Global, length: u32, count: u32) -> RowStream
        ensures { HasStreamed length count [] [] result }
    {
        RowStream {
            cursor: RowCursor::new(alloc),
            bytes: length,
            rows: count,
        }
    }

    /// Adds the next piece of a half's area from the rows on. Bytes after those of the rows are
    /// ignored. An empty piece takes no memory. Where memory is refused, the stream is unchanged.
    pub fn push(&mut self, piece: &[u8]) -> Result<(), AllocError>
        ensures pushed { OnOk result ((size count : ℕ) (pushed : List ℕ) (given : List RowView) → HasStreamed size count pushed given self.old
            → HasStreamed size count (pushed ++ piece.now) given self.new) }
        ensures refused { OnErr result (self.new ≡ self.old) }
        ensures memory { OnErr result (0 < length piece.now) }
    {
        let taken = &piece[..piece.len().min(self.bytes as usize)];
        self.cursor.push(taken)?;
        self.bytes -= taken.len() as u32;
        Ok(())
    }

    /// The next row, where its whole record was pushed; else `None`. Once all bytes of the rows
    /// were pushed, `None` means that the last row was returned. Bytes that are no record, a row
    /// that is out of order or beyond the count, and bytes that end within a record or with too few
    /// rows are `BadCheckpoint`, as for `read_half`, whatever bytes come next. The call takes
    /// memory only where the row's segment has an outline. After an error the stream is unchanged.
    pub fn next(&mut self) -> Result<Option<Row>, PairError>
        ensures row { IfOk result (λ next. IfSome next (λ row. (size count : ℕ) (pushed : List ℕ) (given : List RowView)
            → HasStreamed size count pushed given self.old → HasStreamed size count pushed (given ++ row_view row ∷ []) self.new)) }
        ensures fewer { IfOk result (λ next. IfSome next (λ _. self.new.rows + 1 ≡ self.old.rows)) }
        ensures all { IfOk result (λ next. IfNone next ((size count : ℕ) (pushed : List ℕ) (given : List RowView)
            → HasStreamed size count pushed given self.old → size ≤ length pushed → as_counted count (rows_decoding (take size pushed)) ≡ Some given)) }
        ensures short { IfOk result (λ next. IfNone next (length self.new.cursor.rest < 16389)) }
        ensures none { IfOk result (λ next. IfNone next (self.new ≡ self.old)) }
        ensures refused { IfErr result (λ e. e ≢ NoMemory → (e ≡ BadCheckpoint) × AreNoStreamedRows self.old) }
        ensures kept { OnErr result (self.new ≡ self.old) }
        ensures memory { IfErr result (λ e. e ≡ NoMemory → HasOutline self.old.cursor.rest) }
    {
        if self.rows == 0 {
            if self.cursor.has_rest() {
                return Err(PairError::BadCheckpoint);
            }
            return Ok(None);
        }
        match next_row(&mut self.cursor)? {
            Some(row) => {
                self.rows -= 1;
                Ok(Some(row))
            }
            None => {
                if self.bytes == 0 {
                    return Err(PairError::BadCheckpoint);
                }
                Ok(None)
            }
        }
    }
}

/// The next row of a cursor. Bytes that are no next row are a bad checkpoint.
fn next_row(cursor: &mut RowCursor) -> Result<Option<Row>, PairError>
    ensures row { IfOk result (λ next. IfSome next (λ row. (fed : List ℕ) (given : List RowView)
        → HasGiven fed given cursor.old → HasGiven fed (given ++ row_view row ∷ []) cursor.new)) }
    ensures none { IfOk result (λ next. IfNone next ((cursor.new ≡ cursor.old) × (has_row cursor.old.rest ≡ false))) }
    ensures short { IfOk result (λ next. IfNone next (length cursor.new.rest < 16389)) }
    ensures refused { IfErr result (λ e. e ≢ NoMemory → (e ≡ BadCheckpoint) × IsRefusedCursor cursor.old) }
    ensures kept { OnErr result (cursor.new ≡ cursor.old) }
    ensures memory { IfErr result (λ e. e ≡ NoMemory → HasOutline cursor.old.rest) }
{
    match cursor.next() {
        Ok(next) => Ok(next),
        Err(DbError::NoMemory) => Err(PairError::NoMemory),
        Err(_) => Err(PairError::BadCheckpoint),
    }
}
