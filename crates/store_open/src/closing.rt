//! Closing the gates of a half that is not used.

ghost use Rattle.std.specs.Prelude.{◌≡◌, ◌≤◌, ◌<◌, [], false, OnOk, IfOk};
ghost use Rattle.byte_lists.specs.Sectors.{sector_at, is_open_gate};
ghost use Rattle.sector_dev.specs.Disk.{IsHonest, reads_of};
ghost use Rattle.sector_dev.specs.Calls.{count_after};
ghost use Rattle.sector_dev.specs.Stretch.{Stretch};
ghost use Rattle.store_layout.specs.Layout.{IsGeometry, image_sectors, other};
ghost use Rattle.store_layout.specs.Geometry.{geometry_view};
ghost use Rattle.store_open.specs.Looking.{LooksAt};
ghost use Rattle.store_open.specs.NewStore.{DeviceHasRoomFor};
ghost use Rattle.store_open.specs.Closing.{IsClosing, IsClosingUnused, HasClosedGates, HasNoGateToClose, synced_by};

use crate::scanning::read_sector;
use byte_lists::{closed_gate, closed_gates, is_open};
use sector_dev::{DevError, Device};
use store_layout::{Geometry, Half};

/// Closes those of a half's two gates that read open: both in one write where the half gate does,
/// and else the journal's first gate alone. Nothing may be dirty before the call.
pub(crate) fn close_half<D: Device>(
    device: &mut D,
    geometry: Geometry,
    half: Half,
) -> Result<(), DevError>
    requires allowed { IsGeometry (geometry_view geometry) }
    requires room { image_sectors (geometry_view geometry) ≤ (D.disk device.old).sectors }
    requires clean { IsHonest (D.disk device.old) → (D.disk device.old).history.now.dirty ≡ [] }

    // At every moment all but these gates is unchanged, and a half gate that is closed is unchanged
    // too.
    ensures any_moment { Stretch (D.disk device.old) (D.disk device.new) (IsClosing (geometry_view geometry) half (reads_of (D.disk device.old))) }

    ensures closed { OnOk result (IsHonest (D.disk device.old) → HasClosedGates (geometry_view geometry) half (reads_of (D.disk device.new))) }

    // Where both gates read closed, nothing is written.
    ensures unwritten { IsHonest (D.disk device.old) → HasClosedGates (geometry_view geometry) half (reads_of (D.disk device.old))
        → (D.disk device.new).history ≡ (D.disk device.old).history }

    // The call fails only where the device does.
    ensures faults { (D.disk device.new).faults ≡ count_after result (D.disk device.old).faults }
{
    let gate = geometry.gate_at(half);
    if is_open_at(device, gate)? {
        return device.write(gate, &closed_gates());
    }
    let journal = geometry.journal_at(half);
    if is_open_at(device, journal)? {
        return device.write(journal, &closed_gate());
    }
    Ok(())
}

/// Closes the gates that read open of the half that is not chosen, unless this half has the tail,
/// after a seal, and syncs. Nothing may be dirty before the call.
pub(crate) fn close_unused<D: Device>(
    device: &mut D,
    geometry: Geometry,
    chosen: Half,
    sealed: bool,
) -> Result<(), DevError>
    requires room { DeviceHasRoomFor (geometry_view geometry) (D.disk device.old) }
    requires clean { IsHonest (D.disk device.old) → (D.disk device.old).history.now.dirty ≡ [] }
    ensures any_moment { Stretch (D.disk device.old) (D.disk device.new)
        (IsClosingUnused sealed (geometry_view geometry) (other chosen) (reads_of (D.disk device.old))) }
    ensures settled { OnOk result (IsHonest (D.disk device.old) → (D.disk device.new).history.now.dirty ≡ []) }
    ensures closed { OnOk result (IsHonest (D.disk device.old) → sealed ≡ false
        → HasClosedGates (geometry_view geometry) (other chosen) (reads_of (D.disk device.new))) }
    ensures unwritten { IsHonest (D.disk device.old) → HasNoGateToClose sealed (geometry_view geometry) (other chosen) (reads_of (D.disk device.old))
        → (D.disk device.new).history ≡ synced_by result (D.disk device.old).history }
    ensures faults { (D.disk device.new).faults ≡ count_after result (D.disk device.old).faults }
{
    if sealed {
        return device.sync();
    }
    close_half(device, geometry, chosen.other())?;
    device.sync()
}

/// Whether the gate in this sector reads open.
pub(crate) fn is_open_at<D: Device>(device: &mut D, at: u64) -> Result<bool, DevError>
    requires { at < (D.disk device.old).sectors }
    ensures looks { LooksAt result (D.disk device.old) (D.disk device.new) }
    ensures open { IfOk result (λ opened. IsHonest (D.disk device.old) → opened ≡ is_open_gate (sector_at at (reads_of (D.disk device.old)))) }
{
    Ok(is_open(&read_sector(device, at)?))
}
