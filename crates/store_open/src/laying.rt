//! Writing a checkpoint to its area, piece by piece.

ghost use Rattle.std.specs.Prelude.{◌≡◌, ◌≤◌, ◌<◌, ◌+◌, ◌-◌, ◌*◌, ◌∷◌, ◌++◌, [], length, take, OnOk, IfOk};
ghost use Rattle.std.specs.Option.{option_map, ForSome};
ghost use Rattle.byte_lists.specs.Content.{overwrite};
ghost use Rattle.byte_lists.specs.Sectors.{padded};
ghost use Rattle.byte_lists.specs.declared.format.TheConstants.{SECTOR};
ghost use Rattle.row_map.specs.Row.{row_view};
ghost use Rattle.path_records.specs.declared.format.TheConstants.{PIECE};
ghost use Rattle.path_records.specs.RowRecord.{row_record, rows_encoding};
ghost use Rattle.sector_dev.specs.Disk.{IsHonest, reads_of};
ghost use Rattle.sector_dev.specs.Calls.{WriteCall, count_after};
ghost use Rattle.sector_dev.specs.Stretch.{Stretch};
ghost use Rattle.seg_core.specs.Encoding.{segment_encoding};
ghost use Rattle.store_open.specs.RowWrites.{IsWrittenUpTo, record_if_any};
ghost use Rattle.store_open.specs.TakingOver.{IsTornAt};
ghost use Rattle.store_open.specs.declared.laying.TheConstants.{BUFFER};

use byte_lists::{put, sector_count};
use path_db::PathDb;
use path_records::{PIECE, row_head};
use row_map::{MOST_ROW_BYTES, ROW_HEAD, Row, Rows};
use sector_dev::{DevError, Device, SECTOR};
use store_layout::BEFORE_ROWS;

/// The sectors of one write: a piece.
const WRITE_SECTORS: u64 = (PIECE / SECTOR) as u64;

/// The length of the buffer in bytes: a piece and the seven greatest rows, in whole sectors.
pub(crate) const BUFFER: usize = (PIECE + 7 * MOST_ROW_BYTES + (SECTOR - 1)) / SECTOR * SECTOR;

/// Writes the front of a checkpoint and its rows from a sector on, padded with zeros to whole
/// sectors, piece by piece from one buffer, and syncs. Nothing may be dirty before the call.
pub(crate) fn lay<D: Device>(
    device: &mut D,
    at: u64,
    head: &[u8; 32],
    db: &PathDb,
    buffer: &mut [u8],
) -> Result<(), DevError>
    requires inside { SECTOR * at + length (padded (head.now ++ rows_encoding db.now)) ≤ SECTOR * (D.disk device.old).sectors }
    requires buffer { length buffer.old ≡ BUFFER }
    requires clean { IsHonest (D.disk device.old) → (D.disk device.old).history.now.dirty ≡ [] }

    // At every moment all but these sectors is unchanged.
    ensures any_moment { Stretch (D.disk device.old) (D.disk device.new)
        (IsTornAt (SECTOR * at) (length (padded (head.now ++ rows_encoding db.now))) (reads_of (D.disk device.old))) }

    ensures settled { OnOk result (IsHonest (D.disk device.old) → (D.disk device.new).history.now.dirty ≡ []) }
    ensures written { OnOk result (IsHonest (D.disk device.old)
        → reads_of (D.disk device.new) ≡ overwrite (SECTOR * at) (padded (head.now ++ rows_encoding db.now)) (reads_of (D.disk device.old))) }

    // The call fails only where the device does.
    ensures faults { (D.disk device.new).faults ≡ count_after result (D.disk device.old).faults }
{
    put(buffer, 0, head);
    let (sector, used) = write_rows(device, at, db.rows(), buffer, BEFORE_ROWS)?;
    write_rest(device, sector, buffer, used)?;
    device.sync()
}

/// Writes the used part of the buffer, and rows after it, in whole pieces. Returns the sector from
/// which the rest has to be written, and how many bytes of the buffer the rest has.
fn write_rows<D: Device>(
    device: &mut D,
    at: u64,
    rows: Rows<'_>,
    buffer: &mut [u8],
    before: usize,
) -> Result<(u64, usize), DevError>
    requires inside { SECTOR * at + length (padded (take before buffer.old ++ rows_encoding rows)) ≤ SECTOR * (D.disk device.old).sectors }
    requires buffer { length buffer.old ≡ BUFFER }
    requires used { before < PIECE }
    requires clean { IsHonest (D.disk device.old) → (D.disk device.old).history.now.dirty ≡ [] }
    ensures any_moment { Stretch (D.disk device.old) (D.disk device.new)
        (IsTornAt (SECTOR * at) (length (padded (take before buffer.old ++ rows_encoding rows.entry))) (reads_of (D.disk device.old))) }
    ensures rewritten { IfOk result (λ rest. IsWrittenUpTo (D.disk device.old) (D.disk device.new) at rest.0
        (take rest.1 buffer.new) (take before buffer.old ++ rows_encoding rows.entry)) }
    ensures buffer { length buffer.new ≡ length buffer.old }
    ensures rest { IfOk result (λ rest. rest.1 < PIECE) }
    ensures faults { (D.disk device.new).faults ≡ count_after result (D.disk device.old).faults }
{
    let mut rows = rows;
    let mut sector = at;
    let mut used = before;
    while let Some(row) = rows.next() {
        used = put_seven(buffer, used, row, &mut rows);
        if used >= PIECE {
            write_piece(device, sector, buffer, used)?;
            sector += WRITE_SECTORS;
            used -= PIECE;
        }
    }
    Ok((sector, used))
}

/// Writes the piece at the front of the buffer, and moves the used bytes after it to the front.
fn write_piece<D: Device>(
    device: &mut D,
    sector: u64,
    buffer: &mut [u8],
    used: usize,
) -> Result<(), DevError>
    requires used { PIECE ≤ used }
    requires buffer { used ≤ length buffer.old }
    requires inside { SECTOR * sector + PIECE ≤ SECTOR * (D.disk device.old).sectors }
    ensures write { WriteCall sector (take PIECE buffer.old) result (D.disk device.old) (D.disk device.new) }
    ensures rest { OnOk result (take PIECE buffer.old ++ take (used - PIECE) buffer.new ≡ take used buffer.old) }
    ensures buffer { length buffer.new ≡ length buffer.old }
{
    device.write(sector, &buffer[..PIECE])?;
    buffer.copy_within(PIECE..used, 0);
    Ok(())
}

/// Writes the used part of the buffer, padded with zeros to whole sectors.
fn write_rest<D: Device>(
    device: &mut D,
    sector: u64,
    buffer: &mut [u8],
    used: usize,
) -> Result<(), DevError>
    requires buffer { length buffer.old ≡ BUFFER }
    requires used { used ≤ PIECE }
    requires inside { SECTOR * sector + length (padded (take used buffer.old)) ≤ SECTOR * (D.disk device.old).sectors }
    ensures write { WriteCall sector (padded (take used buffer.old)) result (D.disk device.old) (D.disk device.new) }
{
    let end = SECTOR * sector_count(used);
    buffer[used..end].fill(0);
    device.write(sector, &buffer[..end])
}

/// Puts the records of a row and of the next six after the used part of the buffer, and returns the
/// length of the used part then. All seven are read before any is copied, so that the processor
/// waits for their memory at the same time.
fn put_seven(buffer: &mut [u8], used: usize, first: &Row, rows: &mut Rows<'_>) -> usize
    requires buffer { length buffer.old ≡ BUFFER }
    requires used { used < PIECE }
    ensures put { take result buffer.new ++ rows_encoding rows.new ≡ take used buffer.old ++ rows_encoding (row_view first.now ∷ rows.old) }
    ensures buffer { length buffer.new ≡ length buffer.old }
    ensures inside { result ≤ used + 114723 }
    ensures fewer { length rows.new ≤ length rows.old }
{
    let encoding = first.segment.encoding();
    let second = next_seen(rows);
    let third = next_seen(rows);
    let fourth = next_seen(rows);
    let fifth = next_seen(rows);
    let sixth = next_seen(rows);
    let seventh = next_seen(rows);
    let used = put_row(buffer, used, first, encoding);
    let used = put_seen(buffer, used, second);
    let used = put_seen(buffer, used, third);
    let used = put_seen(buffer, used, fourth);
    let used = put_seen(buffer, used, fifth);
    let used = put_seen(buffer, used, sixth);
    put_seen(buffer, used, seventh)
}

/// The next row, where there is one, and the encoding of its segment.
fn next_seen<'a>(rows: &mut Rows<'a>) -> Option<(&'a Row, &'a [u8])>
    ensures next { rows_encoding rows.old ≡ record_if_any (option_map (λ seen. row_view seen.0.now) result) ++ rows_encoding rows.new }
    ensures seen { ForSome result (λ seen. seen.1.now ≡ segment_encoding seen.0.now.segment) }
    ensures fewer { length rows.new ≤ length rows.old }
{
    match rows.next() {
        Some(row) => Some((row, row.segment.encoding())),
        None => None,
    }
}

/// Puts the record of a row, where there is one, after the used part of the buffer, and returns the
/// length of the used part then.
fn put_seen(buffer: &mut [u8], used: usize, seen: Option<(&Row, &[u8])>) -> usize
    requires room { used + 16389 ≤ length buffer.old }
    requires seen { ForSome seen (λ seen. seen.1.now ≡ segment_encoding seen.0.now.segment) }
    ensures put { take result buffer.new ≡ take used buffer.old ++ record_if_any (option_map (λ seen. row_view seen.0.now) seen.entry) }
    ensures buffer { length buffer.new ≡ length buffer.old }
    ensures inside { result ≤ used + 16389 }
{
    match seen {
        Some((row, encoding)) => put_row(buffer, used, row, encoding),
        None => used,
    }
}

/// Puts the record of a row after the used part of the buffer, and returns the length of the used
/// part then.
fn put_row(buffer: &mut [u8], used: usize, row: &Row, encoding: &[u8]) -> usize
    requires room { used + 16389 ≤ length buffer.old }
    requires encoding { encoding.now ≡ segment_encoding row.now.segment }
    ensures put { take result buffer.new ≡ take used buffer.old ++ row_record (row_view row.now) }
    ensures buffer { length buffer.new ≡ length buffer.old }
    ensures inside { result ≤ used + 16389 }
{
    put(buffer, used, &row_head(row.kind, &row.segment));
    put(buffer, used + ROW_HEAD, encoding);
    used + ROW_HEAD + encoding.len()
}
