//! Making a store.

ghost use Rattle.std.specs.Prelude.{◌≡◌, OnOk};
ghost use Rattle.sector_dev.specs.Disk.{IsHonest};
ghost use Rattle.sector_dev.specs.Calls.{Keeps, count_after};
ghost use Rattle.sector_dev.specs.Image.{IsFromImage};
ghost use Rattle.sector_dev.specs.Stretch.{Stretch};
ghost use Rattle.store_layout.specs.Geometry.{geometry_view};
ghost use Rattle.store_open.specs.NewStore.{Formats, HoldsNewStore, DeviceHasRoomFor};
ghost use Rattle.store_open.specs.Behind.{SameBehind};

use crate::first_sector::{first_checkpoint, title_sector};
use byte_lists::{closed_gate, open_gate};
use sector_dev::{DevError, Device};
use store_layout::{Geometry, Half};
use thiserror::Error;

/// Why no store was made.
#[derive(Clone, Copy, Debug, PartialEq, Eq, Error)]
pub enum FormatError {
    /// The sizes are not allowed.
    #[error("the sizes are not allowed")]
    BadGeometry = 1,
    /// The device has fewer sectors than a store of these sizes takes.
    #[error("the device is too small")]
    TooSmall,
    /// A call of the device failed. The device may have no store, and has to be formatted again.
    #[error("the device failed")]
    Fault,
}

/// Makes a store of these sizes, without rows and at place 0, whatever was on the device before.
/// The call takes no memory.
#[tactic(auto, using(crate::proofs::Behind::kept_here))]
pub fn format<D: Device>(device: &mut D, geometry: Geometry) -> Result<(), FormatError>
    ensures keeps { Keeps (D.disk device.old) (D.disk device.new) }
    ensures answer { Formats (geometry_view geometry) result (D.disk device.old) (D.disk device.new) }

    // At every moment the bytes after the store are unchanged.
    ensures behind { Stretch (D.disk device.old) (D.disk device.new)
        (IsFromImage (D.disk device.old).history.now (SameBehind (geometry_view geometry))) }
{
    if !geometry.is_allowed() {
        return Err(FormatError::BadGeometry);
    }
    if device.sectors() < geometry.sectors() {
        return Err(FormatError::TooSmall);
    }
    match lay_out(device, geometry) {
        Ok(()) => Ok(()),
        Err(_) => Err(FormatError::Fault),
    }
}

/// Writes the sectors of a new store, and syncs.
fn lay_out<D: Device>(device: &mut D, geometry: Geometry) -> Result<(), DevError>
    requires { DeviceHasRoomFor (geometry_view geometry) (D.disk device.old) }
    ensures keeps { Keeps (D.disk device.old) (D.disk device.new) }
    ensures faults { (D.disk device.new).faults ≡ count_after result (D.disk device.old).faults }
    ensures done { OnOk result (IsHonest (D.disk device.old) → HoldsNewStore (geometry_view geometry) (D.disk device.new)) }
    ensures behind { Stretch (D.disk device.old) (D.disk device.new)
        (IsFromImage (D.disk device.old).history.now (SameBehind (geometry_view geometry))) }
{
    device.write(0, &title_sector(geometry))?;
    device.write(geometry.area_at(Half::First), &first_checkpoint())?;
    device.write(geometry.gate_at(Half::First), &open_gate())?;
    device.write(geometry.journal_at(Half::First), &closed_gate())?;
    device.write(geometry.gate_at(Half::Second), &closed_gate())?;
    device.write(geometry.journal_at(Half::Second), &closed_gate())?;
    device.sync()
}
