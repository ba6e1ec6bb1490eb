//! Reading a sealed half's area: its front, and sectors into a buffer that exists.

ghost use Rattle.std.specs.Prelude.{◌≡◌, ◌+◌, ◌-◌, ◌*◌, ◌≤◌, IfOk, length, take, OnOk};
ghost use Rattle.byte_lists.specs.declared.format.TheConstants.{SECTOR};
ghost use Rattle.sector_dev.specs.Disk.{IsHonest, reads_of};
ghost use Rattle.store_layout.specs.declared.format.TheConstants.{BEFORE_ROWS};
ghost use Rattle.store_layout.specs.Layout.{IsGeometry, image_sectors};
ghost use Rattle.store_layout.specs.Geometry.{geometry_view};
ghost use Rattle.store_open.specs.Refusals.{LooksFor};
ghost use Rattle.store_open.specs.Sealed.{LooksAtHalf};
ghost use Rattle.ckpt_stream.specs.OldArea.{FrontSo};
ghost use Rattle.ckpt_stream.specs.HalfRead.{IsHalfRead, IsWithin, pieces_to_come, ReadsOn};
ghost use Rattle.ckpt_stream.specs.declared.half_read.HalfRead.TheVariants.{Unread};
ghost use Rattle.byte_lists.specs.Content.{part};
ghost use Rattle.store_open.specs.Looking.{LooksAt};

use crate::half_read::HalfRead;
use crate::old_journal::JournalRead;
use byte_lists::SECTOR;
use ckpt_pair::{Front, checkpoints_are_read_by_their_fronts, read_front};
use gate_journal::Scanner;
use sector_dev::{DevError, Device};
use std::alloc::Global;
use store_layout::{Geometry, Half};
use store_open::{OpenError, SealedError, read_sector};

/// Reads the front of a half's area. Its journal comes next.
pub(crate) fn read_half_front<D: Device>(
    alloc: Global,
    device: &mut D,
    geometry: Geometry,
    half: Half,
) -> Result<HalfRead, SealedError>
    requires allowed { IsGeometry (geometry_view geometry) }
    requires room { image_sectors (geometry_view geometry) ≤ (D.disk device.old).sectors }
    ensures looks { LooksAtHalf result (D.disk device.old) (D.disk device.new) }
    ensures whole { IfOk result IsHalfRead }
    ensures within { IfOk result (IsWithin (geometry_view geometry)) }
    ensures nearer { IfOk result (λ next. pieces_to_come next ≤ pieces_to_come Unread - 1) }
    ensures reads { IsHonest (D.disk device.old) → ReadsOn (geometry_view geometry) half (reads_of (D.disk device.old)) Unread result }
{
    let front = read_old_front(device, geometry, half)?;
    let head = front.head;
    let sectors = u64::from(geometry.journal);
    let scanner = Scanner::new(alloc, sectors, head.place, head.version);
    Ok(HalfRead::Journal(JournalRead {
        front,
        sectors: geometry.journal,
        scanner,
    }))
}

/// Reads the front of a half's area.
fn read_old_front<D: Device>(
    device: &mut D,
    geometry: Geometry,
    half: Half,
) -> Result<Front, OpenError>
    requires allowed { IsGeometry (geometry_view geometry) }
    requires room { image_sectors (geometry_view geometry) ≤ (D.disk device.old).sectors }
    ensures looks { LooksFor result (D.disk device.old) (D.disk device.new) }
    ensures fits { IfOk result (λ front. BEFORE_ROWS + front.size ≤ SECTOR * geometry.checkpoint) }
    ensures front { IsHonest (D.disk device.old) → FrontSo result (geometry_view geometry) half (reads_of (D.disk device.old)) }
{
    checkpoints_are_read_by_their_fronts();
    let sector = read_sector(device, geometry.area_at(half))?;
    Ok(read_front(&sector, SECTOR as u64 * u64::from(geometry.checkpoint))?)
}

/// Reads this number of sectors to the front of a window.
pub(crate) fn read_sectors<D: Device>(
    device: &mut D,
    at: u64,
    count: u64,
    window: &mut [u8],
) -> Result<(), DevError>
    requires inside { at + count ≤ (D.disk device.old).sectors }
    requires window { SECTOR * count ≤ length window.old }
    ensures looks { LooksAt result (D.disk device.old) (D.disk device.new) }
    ensures window { length window.new ≡ length window.old }
    ensures read { IsHonest (D.disk device.old)
        → OnOk result (take (SECTOR * count) window.new ≡ part (SECTOR * at) (SECTOR * count) (reads_of (D.disk device.old))) }
{
    device.read(at, &mut window[..SECTOR * count as usize])
}
