//! Rows as records.

ghost use Rattle.std.specs.Prelude.{◌≡◌, ◌≤◌, ◌<◌, ◌++◌, length, take, drop, IfOk, IfErr, OnOk, OnErr, IsOk, is_ok};
ghost use Rattle.seg_core.specs.Encoding.{IsSegment, segment_encoding};
ghost use Rattle.seg_core.specs.Registration.{type_of};
ghost use Rattle.seg_core.specs.Segment.{segment_outline};
ghost use Rattle.path_records.specs.declared.error.DbError.TheVariants.{NoMemory, BadRecord};
ghost use Rattle.path_records.specs.RecordSteps.{GivesRecord, ReadsRecord};
ghost use Rattle.row_map.specs.Database.{IsDatabase, AreWhole};
ghost use Rattle.row_map.specs.Row.{row_view, row_views};
ghost use Rattle.path_records.specs.RowRecord.{row_record, rows_encoding, row_size, has_row, record_of, row_decoding, spelled_segment, HasOutline, is_row_above, rows_decoding};
ghost use Rattle.seg_core.specs.Message.{last_of};

use crate::error::DbError;
use byte_lists::read_u32;
use path_db::PathDb;
use row_map::{ROW_HEAD, Row, Rows, type_byte};
use seg_core::{
    SegError, SegType, Segment, encoded_len, is_encoding_of, put_segment, read_segment,
};
use std::alloc::{AllocError, Global};

/// Appends the records of all rows, in the order of their keys. A record is the type (1 byte), the
/// length of the segment's encoding (4, big-endian), and the encoding. Where memory is refused, the
/// vector keeps its items. An empty database takes no memory.
pub fn write_rows(db: &PathDb, out: &mut Vec<u8>) -> Result<(), AllocError>
    ensures ok { OnOk result (out.new.items ≡ out.old.items ++ rows_encoding db.now) }
    ensures err { OnErr result (out.new.items ≡ out.old.items) }
    ensures memory { OnErr result (0 < length db.now) }
{
    let before = out.len();
    let put = put_rows(db.rows(), out);
    if put.is_err() {
        out.truncate(before);
    }
    put
}

/// Appends the records of rows, or a part of them where memory is refused.
fn put_rows(rows: Rows<'_>, out: &mut Vec<u8>) -> Result<(), AllocError>
    ensures ok { OnOk result (out.new.items ≡ out.old.items ++ rows_encoding rows.entry) }
    ensures kept { take (length out.old.items) out.new.items ≡ out.old.items }
    ensures memory { OnErr result (0 < length rows.entry) }
{
    for row in rows {
        put_row(row.kind, &row.segment, out)?;
    }
    Ok(())
}

/// Appends the record of a row, or a part of it where memory is refused.
pub(crate) fn put_row(kind: SegType, segment: &Segment, out: &mut Vec<u8>) -> Result<(), AllocError>
    ensures ok { OnOk result (out.new.items ≡ out.old.items ++ row_record (kind, segment.now)) }
    ensures kept { take (length out.old.items) out.new.items ≡ out.old.items }
{
    out.extend_from_slice(&row_head(kind, segment))?;
    put_segment(segment, out)
}

/// The bytes of a row's record before the segment's encoding: the type (1), and the length of that
/// encoding (4, big-endian).
#[tactic(auto, unfolding(crate::specs::RowRecord::row_record))]
pub fn row_head(kind: SegType, segment: &Segment) -> [u8; 5]
    ensures { result ++ segment_encoding segment.now ≡ row_record (kind, segment.now) }
{
    let size = (encoded_len(segment) as u32).to_be_bytes();
    [type_byte(kind), size[0], size[1], size[2], size[3]]
}

/// The type with the number of this byte.
pub(crate) fn type_from(byte: u8) -> Result<SegType, DbError>
    ensures { ReadsRecord (λ kind. kind) result (record_of (type_of byte)) }
{
    match SegType::from_number(u64::from(byte)) {
        Ok(kind) => Ok(kind),
        Err(_) => Err(DbError::BadRecord),
    }
}

/// The length of the record at the front, where the whole record is there.
pub(crate) fn size_of_row(bytes: &[u8]) -> Result<usize, DbError>
    ensures size { IfOk result (λ size. size ≡ row_size bytes.now) }
    ensures exact { is_ok result ≡ has_row bytes.now }
    ensures within { IfOk result (λ size. size ≤ length bytes.now) }
    ensures refused { IfErr result (λ e. e ≡ BadRecord) }
{
    if bytes.len() < ROW_HEAD {
        return Err(DbError::BadRecord);
    }
    let size = read_u32(bytes, 1) as usize;
    if bytes.len() - ROW_HEAD < size {
        return Err(DbError::BadRecord);
    }
    Ok(ROW_HEAD + size)
}

/// The segment of a message, which has to be the segment's one encoding.
#[tactic(auto, unfolding(crate::specs::RowRecord::spelled_segment))]
fn read_spelled(alloc: Global, message: &[u8]) -> Result<Segment, DbError>
    ensures decoding { GivesRecord (λ segment. segment) result (spelled_segment message.now) }
    ensures whole { IfOk result IsSegment }
    ensures outline { OnOk result (IsOk (segment_outline message.now)) }
    ensures memory { IfErr result (λ e. e ≡ NoMemory → IsOk (segment_outline message.now)) }
{
    let segment = match read_segment(alloc, message) {
        Ok(segment) => segment,
        Err(SegError::NoMemory) => return Err(DbError::NoMemory),
        Err(_) => return Err(DbError::BadRecord),
    };
    if !is_encoding_of(message, &segment) {
        return Err(DbError::BadRecord);
    }
    Ok(segment)
}

/// The row at the front of the bytes, and the bytes after its record.
#[tactic(auto, unfolding(crate::specs::RowRecord::row_decoding))]
pub(crate) fn read_row(alloc: Global, bytes: &[u8]) -> Result<((SegType, Segment), &[u8]), DbError>
    ensures decoding { GivesRecord (λ read. read.0) result (row_decoding bytes.now) }
    ensures behind { IfOk result (λ read. read.1.now ≡ drop (row_size bytes.now) bytes.now) }
    ensures whole { IfOk result (λ read. IsSegment read.0.1) }
    ensures outline { OnOk result (HasOutline bytes.now) }
    ensures memory { IfErr result (λ e. e ≡ NoMemory → HasOutline bytes.now) }
{
    let size = size_of_row(bytes)?;
    let kind = type_from(bytes[0])?;
    let segment = read_spelled(alloc, &bytes[ROW_HEAD..size])?;
    Ok(((kind, segment), &bytes[size..]))
}

/// Reads the records of rows, which have to be all of the bytes. The ids are computed again. The
/// error is the first that applies: `BadRecord` for bytes that are no record, `Order` for a row
/// whose key is not strictly above the key of the row before. No bytes are an empty database. The
/// call takes memory from the first row on whose segment has an outline.
pub fn read_rows(alloc: Global, bytes: &[u8]) -> Result<PathDb, DbError>
    ensures decoding { GivesRecord (λ rows. rows) result (rows_decoding bytes.now) }
    ensures whole { IfOk result IsDatabase }
    ensures memory { IfErr result (λ e. e ≡ NoMemory → HasOutline bytes.now) }
{
    let rows = read_rising(alloc, bytes)?;
    Ok(PathDb::of_rows(alloc, rows)?)
}

/// Reads rows whose keys rise.
fn read_rising(alloc: Global, bytes: &[u8]) -> Result<Vec<Row>, DbError>
    ensures decoding { GivesRecord (λ rows. row_views rows.items) result (rows_decoding bytes.now) }
    ensures whole { IfOk result (λ rows. AreWhole (row_views rows.items)) }
    ensures memory { IfErr result (λ e. e ≡ NoMemory → HasOutline bytes.now) }
{
    let mut rows = Vec::new(alloc);
    let mut rest = bytes;
    while !rest.is_empty() {
        let ((kind, segment), behind) = read_row(alloc, rest)?;
        let row = Row::new(kind, segment);
        if !is_above_last(&rows, &row) {
            return Err(DbError::Order);
        }
        rows.push(row)?;
        rest = behind;
    }
    Ok(rows)
}

/// Whether there is no row before, or the key is strictly above that of the last row.
pub(crate) fn is_above_last(rows: &[Row], row: &Row) -> bool
    ensures { result ≡ is_row_above (last_of (row_views rows.now)) (row_view row.now) }
{
    match rows.last() {
        Some(before) => before.cmp_key(row.kind, row.id()).is_lt(),
        None => true,
    }
}
