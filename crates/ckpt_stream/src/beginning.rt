//! Beginning the checkpoint of a sealed half.

ghost use Rattle.std.specs.Prelude.{◌+◌, ◌*◌, ◌<◌, ◌≤◌, ◌^◌, List, IfOk, OnOk};
ghost use Rattle.byte_lists.specs.declared.format.TheConstants.{SECTOR};
ghost use Rattle.row_map.specs.Database.{RowView, IsDatabase, rows_len};
ghost use Rattle.path_db.specs.declared.command.Command.{Command};
ghost use Rattle.store_layout.specs.declared.format.TheConstants.{BEFORE_ROWS};
ghost use Rattle.store_layout.specs.Checkpoint.{CanBeCheckpoint};
ghost use Rattle.store_layout.specs.Layout.{Geometry as GeometryView, IsGeometry, image_sectors};
ghost use Rattle.store_layout.specs.Geometry.{geometry_view};
ghost use Rattle.ckpt_pair.specs.Checkpoint.{written_checkpoint};
ghost use Rattle.ckpt_pair.specs.Rows.{rows_format};
ghost use Rattle.store_open.specs.Sealed.{LooksAtHalf};
ghost use Rattle.ckpt_stream.specs.Edits.{bytes_in};
ghost use Rattle.ckpt_stream.specs.Planner.{IsPlanOf};
ghost use Rattle.ckpt_stream.specs.Beginning.{MergesSealed, RewritesCheckpoint};
ghost use Rattle.ckpt_stream.specs.HalfRead.{IsHalfRead, IsWithin, IsReadOn, ReadsAll, ArePlannedOn};
ghost use Rattle.ckpt_stream.specs.OldRows.{ArePlanned};
ghost use Rattle.ckpt_stream.specs.Preparation.{SealedContents, IsUnread, IsPreparedFrom, IsPreparedFor};
ghost use Rattle.sector_dev.specs.Disk.{IsHonest, reads_of};

use crate::error::PieceError;
use crate::half_read::{HalfRead, PlannedRows};
use crate::making::make_piece;
use crate::merge::{Merge, WINDOW};
use crate::plan::Plan;
use crate::preparation::Preparation;
use crate::rewrite::Rewrite;
use byte_lists::sector_count;
use ckpt_pair::{area_room, checkpoint_front};
use sector_dev::Device;
use std::alloc::{AllocError, Global};
use std::mem::replace;
use store_layout::{BEFORE_ROWS, Geometry, Half};
use store_open::SealedError;

/// Reads what is not read yet of a half whose journal is sealed, and plans its checkpoint of this
/// epoch: the half's rows after the journal's commands. The rows from which the first piece is made
/// are read twice, and the others once. Nothing is written, and the half's gate is not read. A half
/// that is refused, or whose rows after the commands do not fit an area, is `Damaged`. What is
/// prepared is used up: the preparation begins anew, also after an error.
pub fn begin_prepared<D: Device>(
    alloc: Global,
    device: &mut D,
    geometry: Geometry,
    half: Half,
    epoch: u64,
    preparation: &mut Preparation,
) -> Result<Merge, SealedError>
    requires allowed { IsGeometry (geometry_view geometry) }
    requires room { image_sectors (geometry_view geometry) ≤ (D.disk device.old).sectors }
    requires prepared { IsHonest (D.disk device.old) → IsPreparedFor (geometry_view geometry) half (reads_of (D.disk device.old)) preparation.old }
    ensures looks { LooksAtHalf result (D.disk device.old) (D.disk device.new) }
    ensures merges { MergesSealed (geometry_view geometry) half epoch result (D.disk device.old) }
    ensures spent { IsUnread preparation.new }
    ensures from { (geometry : GeometryView) (contents : SealedContents) → IsPreparedFrom geometry contents preparation.new }
{
    let read = replace(&mut preparation.read, HalfRead::Unread);
    if !read.is_within(geometry) {
        return Err(SealedError::Damaged);
    }
    let planned = read_rest(alloc, device, geometry, half, read)?;
    merge_of(alloc, device, geometry, half, epoch, planned)
}

/// Reads the rest of a half, and plans its rows.
fn read_rest<D: Device>(
    alloc: Global,
    device: &mut D,
    geometry: Geometry,
    half: Half,
    read: HalfRead,
) -> Result<PlannedRows, SealedError>
    requires allowed { IsGeometry (geometry_view geometry) }
    requires room { image_sectors (geometry_view geometry) ≤ (D.disk device.old).sectors }
    requires whole { IsHalfRead read }
    requires within { IsWithin (geometry_view geometry) read }
    requires reads { IsHonest (D.disk device.old) → IsReadOn (geometry_view geometry) half (reads_of (D.disk device.old)) read }
    ensures looks { LooksAtHalf result (D.disk device.old) (D.disk device.new) }
    ensures planned { IfOk result ArePlanned }
    ensures fits { IfOk result (λ planned. BEFORE_ROWS + planned.front.size ≤ SECTOR * geometry.checkpoint) }
    ensures reads { IsHonest (D.disk device.old) → ReadsAll (geometry_view geometry) half (reads_of (D.disk device.old)) result }
{
    let mut read = read;
    'pieces: loop {
        if let HalfRead::Planned(planned) = read {
            return Ok(planned);
        }
        read = read.read_next(alloc, device, geometry, half)?;
    }
}

/// The merge of a half that is read whole. It reads the rows from which the first piece is made.
fn merge_of<D: Device>(
    alloc: Global,
    device: &mut D,
    geometry: Geometry,
    half: Half,
    epoch: u64,
    planned: PlannedRows,
) -> Result<Merge, SealedError>
    requires allowed { IsGeometry (geometry_view geometry) }
    requires room { image_sectors (geometry_view geometry) ≤ (D.disk device.old).sectors }
    requires planned { ArePlanned planned }
    requires fits { BEFORE_ROWS + planned.front.size ≤ SECTOR * geometry.checkpoint }
    requires reads { IsHonest (D.disk device.old) → ArePlannedOn (geometry_view geometry) half (reads_of (D.disk device.old)) planned }
    ensures looks { LooksAtHalf result (D.disk device.old) (D.disk device.new) }
    ensures merges { MergesSealed (geometry_view geometry) half epoch result (D.disk device.old) }
{
    let (size, place, note) = (planned.front.size, planned.place, planned.after);
    let (plan, sums) = (planned.plan, planned.sums);
    if plan.size > area_room(geometry.checkpoint) {
        return Err(SealedError::Damaged);
    }
    let sectors = sector_count(BEFORE_ROWS + plan.size as usize) as u64;
    let mut window = vec![in alloc; 0; WINDOW]?;
    let mut rewrite = rewrite_of(alloc, epoch, place, plan)?;
    let area = geometry.area_at(half);
    match make_piece(device, area, size, &sums, &mut rewrite, &mut window) {
        Ok(()) => Ok(Merge {
            rewrite,
            window,
            size,
            sums,
            sectors,
            note,
            epoch,
            place,
        }),
        Err(PieceError::Fault) => Err(SealedError::Fault),
        Err(PieceError::Damaged) => Err(SealedError::Damaged),
    }
}

/// The rewrite that makes the checkpoint of a plan. It has made only the 32 bytes before the rows.
fn rewrite_of(alloc: Global, epoch: u64, place: u64, plan: Plan) -> Result<Rewrite, AllocError>
    requires edits { bytes_in plan.edits.items < 2 ^ 33 }
    requires size { plan.size < 2 ^ 32 }
    requires count { plan.count < 2 ^ 32 }
    ensures rewritten { IfOk result (λ rewrite. (rows : List RowView) (commands : List Command)
        → IsPlanOf rows commands plan → RewritesCheckpoint epoch place rows commands rewrite) }
    ensures can { OnOk result ((rows : List RowView)
        → IsDatabase rows → rows_len rows < 2 ^ 32 → CanBeCheckpoint rows_format (written_checkpoint epoch place rows)) }
{
    let head = checkpoint_front(epoch, place, plan.size as u32, plan.count as u32);
    Rewrite::new(alloc, &head, plan.edits, plan.rows)
}
