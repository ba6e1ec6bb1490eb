//! One half takes over from the other, at rest.

ghost use Rattle.std.specs.Prelude.{◌≡◌, ◌%◌, ◌*◌, ◌+◌, ◌≤◌, ◌++◌, [], length, OnOk};
ghost use Rattle.byte_lists.specs.Content.{overwrite};
ghost use Rattle.byte_lists.specs.Sectors.{padded};
ghost use Rattle.byte_lists.specs.declared.format.TheConstants.{SECTOR};
ghost use Rattle.path_records.specs.RowRecord.{rows_encoding};
ghost use Rattle.sector_dev.specs.Disk.{IsHonest, reads_of};
ghost use Rattle.sector_dev.specs.Calls.{count_after};
ghost use Rattle.sector_dev.specs.Stretch.{Stretch};
ghost use Rattle.store_layout.specs.Layout.{IsGeometry, image_sectors};
ghost use Rattle.store_layout.specs.Geometry.{geometry_view};
ghost use Rattle.store_open.specs.declared.laying.TheConstants.{BUFFER};
ghost use Rattle.store_open.specs.TakingOver.{IsTornAt, IsTakingOver, taken};

use crate::laying::lay;
use byte_lists::{closed_gates, open_gate};
use path_db::PathDb;
use sector_dev::{DevError, Device};
use store_layout::{Geometry, Half};

/// Writes a checkpoint to the other half's area, opens that half, and closes the old half and its
/// journal in one write. Each of the three writes is synced before the next one. Nothing may be
/// dirty before the call.
pub(crate) fn take_over<D: Device>(
    device: &mut D,
    geometry: Geometry,
    half: Half,
    head: &[u8; 32],
    db: &PathDb,
    buffer: &mut [u8],
) -> Result<(), DevError>
    requires allowed { IsGeometry (geometry_view geometry) }
    requires room { image_sectors (geometry_view geometry) ≤ (D.disk device.old).sectors }
    requires fits { length (padded (head.now ++ rows_encoding db.now)) ≤ SECTOR * geometry.checkpoint }
    requires buffer { length buffer.old ≡ BUFFER }
    requires clean { IsHonest (D.disk device.old) → (D.disk device.old).history.now.dirty ≡ [] }

    // At every moment one of the three writes may be torn, and those before it are whole.
    ensures any_moment { Stretch (D.disk device.old) (D.disk device.new)
        (IsTakingOver (geometry_view geometry) half (padded (head.now ++ rows_encoding db.now)) (reads_of (D.disk device.old))) }

    ensures settled { OnOk result (IsHonest (D.disk device.old) → (D.disk device.new).history.now.dirty ≡ []) }
    ensures taken { OnOk result (IsHonest (D.disk device.old)
        → reads_of (D.disk device.new) ≡ taken (geometry_view geometry) half (padded (head.now ++ rows_encoding db.now)) (reads_of (D.disk device.old))) }

    // The call fails only where the device does.
    ensures faults { (D.disk device.new).faults ≡ count_after result (D.disk device.old).faults }
{
    let new = half.other();
    lay(device, geometry.area_at(new), head, db, buffer)?;
    write_through(device, geometry.gate_at(new), &open_gate())?;
    write_through(device, geometry.gate_at(half), &closed_gates())
}

/// Writes whole sectors, and syncs. Nothing may be dirty before the call.
pub(crate) fn write_through<D: Device>(
    device: &mut D,
    at: u64,
    bytes: &[u8],
) -> Result<(), DevError>
    requires whole { length bytes.now % SECTOR ≡ 0 }
    requires inside { SECTOR * at + length bytes.now ≤ SECTOR * (D.disk device.old).sectors }
    requires clean { IsHonest (D.disk device.old) → (D.disk device.old).history.now.dirty ≡ [] }

    // At every moment all but these sectors is unchanged.
    ensures any_moment { Stretch (D.disk device.old) (D.disk device.new)
        (IsTornAt (SECTOR * at) (length bytes.now) (reads_of (D.disk device.old))) }

    ensures settled { OnOk result (IsHonest (D.disk device.old) → (D.disk device.new).history.now.dirty ≡ []) }
    ensures written { OnOk result (IsHonest (D.disk device.old)
        → reads_of (D.disk device.new) ≡ overwrite (SECTOR * at) bytes.now (reads_of (D.disk device.old))) }

    // The call fails only where the device does.
    ensures faults { (D.disk device.new).faults ≡ count_after result (D.disk device.old).faults }
{
    device.write(at, bytes)?;
    device.sync()
}
