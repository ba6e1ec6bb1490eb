//! Reading checkpoints, whole or from pieces of their rows.

ghost use Rattle.std.specs.Prelude.{◌≡◌, ◌≤◌, ◌+◌, ◌==◌, length, IfOk, IfErr, ◌≢◌, ◌<◌, ◌++◌, IsOk};
ghost use Rattle.byte_lists.specs.Content.{part};
ghost use Rattle.row_map.specs.Database.{IsDatabase};
ghost use Rattle.path_records.specs.RowRecord.{rows_decoding, HasOutline};
ghost use Rattle.store_layout.specs.declared.format.TheConstants.{BEFORE_ROWS};
ghost use Rattle.store_layout.specs.CheckpointReading.{checkpoint_in};
ghost use Rattle.ckpt_pair.specs.declared.error.PairError.TheVariants.{NoMemory, BadCheckpoint};
ghost use Rattle.ckpt_pair.specs.Refusals.{ReadsPair, GivesPair};
ghost use Rattle.store_layout.specs.Limits.{latest};
ghost use Rattle.ckpt_pair.specs.Rows.{rows_format, as_counted};
ghost use Rattle.ckpt_pair.specs.Reading.{front_view, front_in, checkpoint_view, or_bad_checkpoint, HasRowsToRead, AreNoRows};

use crate::choice::{Head, open_head};
use crate::error::PairError;
use crate::format::{COUNT_AT, SIZE_AT};
use byte_lists::read_u32;
use path_db::PathDb;
use path_records::{DatabaseReader, DbError, RowDecoder, read_rows};
use std::alloc::Global;
use store_layout::BEFORE_ROWS;

/// The front of a checkpoint: its head, the length of the rows' records in bytes, and the number of
/// rows.
#[derive(Clone, Copy, Debug, PartialEq, Eq)]
pub struct Front {
    pub head: Head,
    pub size: u32,
    pub count: u32,
}

/// A checkpoint that was read: its head, and its rows as a database.
#[derive(Drop)]
pub struct Checkpoint {
    pub head: Head,
    pub db: PathDb,
}

/// Reads the front of an area of `area` bytes. An area with another magic or with version 0 is
/// `BadCheckpoint`, a version above `LATEST` is `NewerFormat`, and rows that do not end within the
/// area are `BadCheckpoint`.
pub fn read_front(bytes: &[u8], area: u64) -> Result<Front, PairError>
    requires { 32 ≤ length bytes.now }
    ensures { ReadsPair front_view result (front_in latest area bytes.now) }
{
    let head = open_head(bytes)?;
    let size = read_u32(bytes, SIZE_AT);
    let count = read_u32(bytes, COUNT_AT);
    if BEFORE_ROWS as u64 + u64::from(size) > area {
        return Err(PairError::BadCheckpoint);
    }
    Ok(Front { head, size, count })
}

/// Reads the checkpoint at the front of a half's area. Its front is checked first, as by
/// `read_front`. Then rows whose length or number is not that of the front, or that are not in the
/// order of their keys, are `BadCheckpoint`. Bytes after the rows are not read. The call takes
/// memory from the first row on whose segment has an outline.
pub fn read_half(alloc: Global, area: &[u8]) -> Result<Checkpoint, PairError>
    requires { BEFORE_ROWS ≤ length area.now }
    ensures checkpoint { GivesPair checkpoint_view result (checkpoint_in rows_format latest area.now) }
    ensures whole { IfOk result (λ checkpoint. IsDatabase checkpoint.db) }
    ensures memory { IfErr result (λ e. e ≡ NoMemory → HasRowsToRead area.now) }
{
    let front = read_front(area, area.len() as u64)?;
    let db = read_counted(alloc, rows_bytes(area, front.size), front.count)?;
    Ok(Checkpoint {
        head: front.head,
        db,
    })
}

/// The bytes of the rows after a front.
fn rows_bytes(area: &[u8], size: u32) -> &[u8]
    requires { BEFORE_ROWS + size ≤ length area.now }
    ensures { result.now ≡ part BEFORE_ROWS size area.now }
{
    &area[BEFORE_ROWS..BEFORE_ROWS + size as usize]
}

/// Reads exactly this number of rows from all of these bytes.
fn read_counted(alloc: Global, bytes: &[u8], count: u32) -> Result<PathDb, PairError>
    ensures decoding { GivesPair (λ rows. rows) result (or_bad_checkpoint (as_counted count (rows_decoding bytes.now))) }
    ensures whole { IfOk result IsDatabase }
    ensures memory { IfErr result (λ e. e ≡ NoMemory → HasOutline bytes.now) }
{
    let db = match read_rows(alloc, bytes) {
        Ok(db) => db,
        Err(DbError::NoMemory) => return Err(PairError::NoMemory),
        Err(_) => return Err(PairError::BadCheckpoint),
    };
    if !has_count(&db, count) {
        return Err(PairError::BadCheckpoint);
    }
    Ok(db)
}

/// Whether there is exactly this number of rows.
pub(crate) fn has_count(db: &PathDb, count: u32) -> bool
    ensures { result ≡ (length db.now == count) }
{
    db.len() == count as usize
}

/// Reads the next piece of the rows' bytes, cut anywhere, in this way. A `BadCheckpoint` does not
/// depend on the count of rows or on the bytes after this piece. An empty piece takes no memory.
pub fn feed_rows_by<B: RowDecoder>(
    by: &B,
    reader: DatabaseReader,
    piece: &[u8],
) -> Result<DatabaseReader, PairError>
    requires { B.is_ready by.now }
    ensures fed { IfOk result (λ more. more ≡ reader ++ piece.now) }
    ensures refused { IfErr result (λ e. e ≢ NoMemory → (e ≡ BadCheckpoint) × AreNoRows (reader ++ piece.now)) }
    ensures memory { IfErr result (λ e. 0 < length piece.now) }
{
    match reader.feed_by(by, piece) {
        Ok(more) => Ok(more),
        Err(DbError::NoMemory) => Err(PairError::NoMemory),
        Err(_) => Err(PairError::BadCheckpoint),
    }
}

/// The database of all bytes that were fed, which have to be the records of exactly `count` rows.
/// The call takes memory only where the bytes are the records of some rows.
pub fn finish_rows(reader: DatabaseReader, count: u32) -> Result<PathDb, PairError>
    ensures decoding { GivesPair (λ rows. rows) result (or_bad_checkpoint (as_counted count (rows_decoding reader))) }
    ensures whole { IfOk result IsDatabase }
    ensures memory { IfErr result (λ e. e ≡ NoMemory → IsOk (rows_decoding reader) × (0 < length reader)) }
{
    let db = match reader.finish() {
        Ok(db) => db,
        Err(DbError::NoMemory) => return Err(PairError::NoMemory),
        Err(_) => return Err(PairError::BadCheckpoint),
    };
    if !has_count(&db, count) {
        return Err(PairError::BadCheckpoint);
    }
    Ok(db)
}
