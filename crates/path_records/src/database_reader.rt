//! Reading rows from pieces.

ghost use Rattle.std.specs.Prelude.{◌≡◌, ◌≢◌, ◌<◌, ◌≤◌, ◌++◌, [], length, drop, IfOk, IfErr, IsOk};
ghost use Rattle.path_records.specs.declared.error.DbError.TheVariants.{NoMemory};
ghost use Rattle.path_records.specs.RecordSteps.{GivesRecord};
ghost use Rattle.row_map.specs.Database.{IsDatabase};
ghost use Rattle.path_records.specs.RowRecord.{rows_decoding};
ghost use Rattle.path_records.specs.DatabaseReader.{AreRefused};

use crate::error::DbError;
use crate::row_decoder::{RowDecoder, read_on};
use byte_lists::read_u32;
use path_db::PathDb;
use row_map::{ROW_HEAD, Row};
use std::alloc::{AllocError, Global};
use std::marker::Model;

/// Reads the records of rows from pieces of their bytes, cut anywhere. It keeps the rows that were
/// read, and beside them only the bytes of a record that is not whole yet. In contracts its value
/// is all of the bytes that were fed.
#[derive(Drop)]
pub struct DatabaseReader {
    alloc: Global,
    rows: Vec<Row>,
    rest: Vec<u8>,
}

impl Model for DatabaseReader {
    ghost use Rattle.std.specs.Prelude.{List, ℕ};
    ghost use Rattle.path_records.specs.DatabaseReader.{bytes_fed, IsReader};

    ghost Value = { List ℕ };

    ghost view = { bytes_fed };

    ghost invariant = { IsReader };
}

impl DatabaseReader {
    /// A reader that was fed nothing. The call takes no memory.
    pub fn new(alloc: Global) -> DatabaseReader
        ensures { result ≡ [] }
    {
        DatabaseReader {
            alloc,
            rows: Vec::new(alloc),
            rest: Vec::new(alloc),
        }
    }

    /// Reads the next piece in this way. The refusal does not depend on the bytes after this piece.
    /// An empty piece takes no memory.
    pub fn feed_by<B: RowDecoder>(self, by: &B, piece: &[u8]) -> Result<DatabaseReader, DbError>
        requires { B.is_ready by.now }
        ensures fed { IfOk result (λ reader. reader ≡ self ++ piece.now) }
        ensures refused { IfErr result (λ e. e ≢ NoMemory → AreRefused (self ++ piece.now) e) }
        ensures memory { IfErr result (λ e. 0 < length piece.now) }
    {
        if piece.is_empty() {
            return Ok(self);
        }
        let (head, behind) = piece.split_at(self.missing().min(piece.len()));
        let reader = self.feed_joined(head)?;
        let (segment, behind) = behind.split_at(reader.missing().min(behind.len()));
        reader.feed_joined(segment)?.feed_apart(by, behind)
    }

    /// How many bytes the head of the record that is not whole yet lacks, or its segment where the
    /// head is there. No clause depends on this number.
    fn missing(&self) -> usize {
        let has = self.rest.len();
        if has == 0 {
            return 0;
        }
        if has < ROW_HEAD {
            return ROW_HEAD - has;
        }
        (ROW_HEAD + read_u32(&self.rest, 1) as usize).saturating_sub(has)
    }

    /// Reads bytes on the calling thread, after those of the record that is not whole yet. The
    /// bytes are copied.
    fn feed_joined(self, bytes: &[u8]) -> Result<DatabaseReader, DbError>
        ensures fed { IfOk result (λ reader. reader ≡ self ++ bytes.now) }
        ensures refused { IfErr result (λ e. e ≢ NoMemory → AreRefused (self ++ bytes.now) e) }
    {
        if bytes.is_empty() {
            return Ok(self);
        }
        let DatabaseReader {
            alloc,
            rows,
            mut rest,
        } = self;
        rest.extend_from_slice(bytes)?;
        let (rows, taken) = read_on(alloc, rows, &rest)?;
        let rest = cut_front(rest, taken)?;
        Ok(DatabaseReader { alloc, rows, rest })
    }

    /// Reads bytes in this way where no record before them is cut. Only those of a record that is
    /// not whole are copied.
    fn feed_apart<B: RowDecoder>(self, by: &B, bytes: &[u8]) -> Result<DatabaseReader, DbError>
        requires { B.is_ready by.now }
        ensures fed { IfOk result (λ reader. reader ≡ self ++ bytes.now) }
        ensures refused { IfErr result (λ e. e ≢ NoMemory → AreRefused (self ++ bytes.now) e) }
    {
        if self.rest.is_empty() {
            let DatabaseReader {
                alloc,
                rows,
                mut rest,
            } = self;
            let (rows, taken) = by.read_on(alloc, rows, bytes)?;
            rest.extend_from_slice(&bytes[taken..])?;
            return Ok(DatabaseReader { alloc, rows, rest });
        }
        self.feed_joined(bytes)
    }

    /// The rows of all bytes that were fed, as `read_rows` returns them. The call takes memory only
    /// where there are rows.
    pub fn finish(self) -> Result<PathDb, DbError>
        ensures decoding { GivesRecord (λ rows. rows) result (rows_decoding self) }
        ensures whole { IfOk result IsDatabase }
        ensures memory { IfErr result (λ e. e ≡ NoMemory → IsOk (rows_decoding self) × (0 < length self)) }
    {
        if !self.rest.is_empty() {
            return Err(DbError::BadRecord);
        }
        Ok(PathDb::of_rows(self.alloc, self.rows)?)
    }
}

/// The bytes without the first ones.
fn cut_front(bytes: Vec<u8>, taken: usize) -> Result<Vec<u8>, AllocError>
    requires { taken ≤ length bytes.items }
    ensures { IfOk result (λ rest. rest.items ≡ drop taken bytes.items) }
{
    let mut bytes = bytes;
    if taken == 0 {
        return Ok(bytes);
    }
    bytes.split_off(taken)
}
