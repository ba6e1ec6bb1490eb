//! Reading the rows of a checkpoint from a device.

ghost use Rattle.std.specs.Prelude.{◌+◌, ◌*◌, ◌≤◌, IfOk, IsOk};
ghost use Rattle.byte_lists.specs.Content.{part};
ghost use Rattle.byte_lists.specs.declared.format.TheConstants.{SECTOR};
ghost use Rattle.sector_dev.specs.Disk.{IsHonest, reads_of};
ghost use Rattle.row_map.specs.Database.{IsDatabase};
ghost use Rattle.store_layout.specs.declared.format.TheConstants.{BEFORE_ROWS};
ghost use Rattle.store_layout.specs.CheckpointReading.{checkpoint_in};
ghost use Rattle.store_layout.specs.Layout.{IsGeometry, image_sectors, area_of};
ghost use Rattle.store_layout.specs.Limits.{latest};
ghost use Rattle.ckpt_pair.specs.Reading.{checkpoint_view, front_in};
ghost use Rattle.ckpt_pair.specs.Rows.{rows_format};
ghost use Rattle.store_layout.specs.Geometry.{geometry_view};
ghost use Rattle.store_open.specs.Refusals.{LooksFor, PairSo, OnOkOrNoMemory};
ghost use Rattle.store_open.specs.Rows.{FeedsSo};

use crate::error::OpenError;
use crate::scanning::{fill, read_sector};
use ckpt_pair::{
    Checkpoint, checkpoints_are_read_by_their_fronts, feed_rows_by, finish_rows, read_front,
};
use path_records::{DatabaseReader, RowDecoder};
use sector_dev::{Device, SECTOR};
use std::alloc::Global;
use store_layout::{BEFORE_ROWS, Geometry, Half};

/// The most sectors that are read at a time: 16 MiB. Each piece is one call of the device, and its
/// rows are shared out among the threads of an opening.
const MOST_READ: u64 = 32_768;

/// Reads the rows of the area that begins at a sector, which have `size` bytes, in pieces of at
/// most 16 MiB, each in this way. All pieces are read into the same memory.
pub(crate) fn feed_area<B: RowDecoder, D: Device>(
    by: &B,
    alloc: Global,
    device: &mut D,
    area: u64,
    size: u32,
) -> Result<DatabaseReader, OpenError>
    requires ready { B.is_ready by.now }
    requires room { SECTOR * area + BEFORE_ROWS + size ≤ SECTOR * (D.disk device.old).sectors }
    ensures looks { LooksFor result (D.disk device.old) (D.disk device.new) }
    ensures rows { IsHonest (D.disk device.old) → FeedsSo (part (SECTOR * area + BEFORE_ROWS) size (reads_of (D.disk device.old))) result }
{
    let sector = SECTOR as u64;
    let end = BEFORE_ROWS as u64 + u64::from(size);
    let sectors = (end + (sector - 1)) / sector;
    let mut reader = DatabaseReader::new(alloc);
    let mut fed = BEFORE_ROWS as u64;
    let mut buffer = vec![in alloc; 0; SECTOR * sectors.min(MOST_READ) as usize]?;
    'pieces: while fed < end {
        let first = fed / sector;
        let count = (sectors - first).min(MOST_READ);
        let is_small = count <= MOST_READ;
        prove!(is_small);
        let piece = &mut buffer[..SECTOR * count as usize];
        fill(device, area + first, piece)?;
        let from = fed - sector * first;
        let to = (end - sector * first).min(sector * count);
        reader = feed_rows_by(by, reader, &piece[from as usize..to as usize])?;
        fed = sector * first + to;
    }
    Ok(reader)
}

/// Reads the checkpoint of a half: its front, and no more of its area than its rows.
pub(crate) fn read_checkpoint<B: RowDecoder, D: Device>(
    by: &B,
    alloc: Global,
    device: &mut D,
    geometry: Geometry,
    half: Half,
) -> Result<Checkpoint, OpenError>
    requires ready { B.is_ready by.now }
    requires allowed { IsGeometry (geometry_view geometry) }
    requires room { image_sectors (geometry_view geometry) ≤ (D.disk device.old).sectors }
    ensures looks { LooksFor result (D.disk device.old) (D.disk device.new) }
    ensures checkpoint { IsHonest (D.disk device.old) → PairSo checkpoint_view result
        (checkpoint_in rows_format latest (area_of (geometry_view geometry) half (reads_of (D.disk device.old)))) }
    ensures memory { IsHonest (D.disk device.old) → OnOkOrNoMemory result
        (IsOk (front_in latest (SECTOR * (geometry_view geometry).checkpoint) (area_of (geometry_view geometry) half (reads_of (D.disk device.old))))) }
    ensures whole { IfOk result (λ checkpoint. IsDatabase checkpoint.db) }
{
    checkpoints_are_read_by_their_fronts();
    let at = geometry.area_at(half);
    let sector = read_sector(device, at)?;
    let front = read_front(&sector, SECTOR as u64 * u64::from(geometry.checkpoint))?;
    let reader = feed_area(by, alloc, device, at, front.size)?;
    let db = finish_rows(reader, front.count)?;
    Ok(Checkpoint {
        head: front.head,
        db,
    })
}
