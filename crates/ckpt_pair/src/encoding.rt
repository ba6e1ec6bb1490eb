//! Writing checkpoints.

ghost use Rattle.std.specs.Prelude.{◌≡◌, ◌<◌, ◌^◌, ◌++◌, List, length, IfOk, OnOk};
ghost use Rattle.store_layout.specs.Checkpoint.{checkpoint_bytes, checkpoint_encoding, CanBeCheckpoint};
ghost use Rattle.row_map.specs.Database.{RowView, IsDatabase, rows_len};
ghost use Rattle.path_records.specs.RowRecord.{rows_encoding};
ghost use Rattle.ckpt_pair.specs.Rows.{rows_format};
ghost use Rattle.ckpt_pair.specs.Checkpoint.{written_checkpoint};

use crate::format::{CHECKPOINT_MAGIC, COUNT_AT, EPOCH_AT, PLACE_AT, SIZE_AT, VERSION_AT};
use byte_lists::{SECTOR, pad, put, sector_count};
use path_db::PathDb;
use path_records::write_rows;
use std::alloc::{AllocError, Global};
use store_layout::{BEFORE_ROWS, LATEST};

/// A database as the checkpoint of an epoch and a place, in version `LATEST`, padded with zeros to
/// whole sectors. Its records have to have less than 4 GiB; such a database can be a checkpoint.
/// The buffer is reserved once, for all of the bytes.
pub fn encode_checkpoint(
    alloc: Global,
    db: &PathDb,
    epoch: u64,
    place: u64,
) -> Result<Vec<u8>, AllocError>
    requires { rows_len db.now < 2 ^ 32 }
    ensures spelled { IfOk result (λ bytes. bytes.items ≡ checkpoint_encoding rows_format (written_checkpoint epoch place db.now)) }
    ensures can { OnOk result (CanBeCheckpoint rows_format (written_checkpoint epoch place db.now)) }
{
    let head = checkpoint_head(db, epoch, place);
    let sectors = sector_count(BEFORE_ROWS + db.encoded_len() as usize);
    let mut out = Vec::with_capacity(alloc, SECTOR * sectors)?;
    out.extend_from_slice(&head)?;
    write_rows(db, &mut out)?;
    pad(&mut out)?;
    Ok(out)
}

/// The 32 bytes of that checkpoint before its rows: the magic (4), the version (4), the epoch (8),
/// the place (8), the length of the rows' records in bytes (4), and the number of rows (4). Numbers
/// are big-endian.
pub fn checkpoint_head(db: &PathDb, epoch: u64, place: u64) -> [u8; 32]
    requires { rows_len db.now < 2 ^ 32 }
    ensures spelled { result ++ rows_encoding db.now ≡ checkpoint_bytes rows_format (written_checkpoint epoch place db.now) }
    ensures can { CanBeCheckpoint rows_format (written_checkpoint epoch place db.now) }
{
    checkpoint_front(epoch, place, db.encoded_len() as u32, db.len() as u32)
}

/// The 32 bytes of `checkpoint_head` for any rows, by the length of their records in bytes and
/// their number. The caller has to know both before the rows are written.
pub fn checkpoint_front(epoch: u64, place: u64, size: u32, count: u32) -> [u8; 32]
    ensures spelled { (rows : List RowView) → rows_len rows ≡ size → length rows ≡ count
        → result ++ rows_encoding rows ≡ checkpoint_bytes rows_format (written_checkpoint epoch place rows) }
    ensures can { (rows : List RowView) → IsDatabase rows → rows_len rows < 2 ^ 32 → CanBeCheckpoint rows_format (written_checkpoint epoch place rows) }
{
    let mut head = [0; BEFORE_ROWS];
    put(&mut head, 0, &CHECKPOINT_MAGIC.to_be_bytes());
    put(&mut head, VERSION_AT, &LATEST.to_be_bytes());
    put(&mut head, EPOCH_AT, &epoch.to_be_bytes());
    put(&mut head, PLACE_AT, &place.to_be_bytes());
    put(&mut head, SIZE_AT, &size.to_be_bytes());
    put(&mut head, COUNT_AT, &count.to_be_bytes());
    head
}
