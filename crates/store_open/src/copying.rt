//! Making a store with given rows, as a copy of another store.

ghost use Rattle.std.specs.Prelude.{◌≡◌, length, OnOk};
ghost use Rattle.sector_dev.specs.Disk.{IsHonest};
ghost use Rattle.sector_dev.specs.Calls.{Keeps, count_after};
ghost use Rattle.sector_dev.specs.Stretch.{Stretch};
ghost use Rattle.store_layout.specs.Geometry.{geometry_view};
ghost use Rattle.store_open.specs.Copying.{IsBeingMade, HoldsStoreWith, MayHoldRows, FormatsWith};
ghost use Rattle.store_open.specs.declared.laying.TheConstants.{BUFFER};

use crate::first_sector::title_sector;
use crate::laying::{BUFFER, lay};
use crate::taking_over::write_through;
use byte_lists::{closed_gates, open_gate};
use ckpt_pair::{area_room, checkpoint_head};
use path_db::PathDb;
use path_records::written_rows_are_counted;
use sector_dev::{DevError, Device};
use std::alloc::Global;
use store_layout::{Geometry, Half};
use thiserror::Error;

/// Why no store with these rows was made.
#[derive(Clone, Copy, Debug, PartialEq, Eq, Error)]
pub enum CopyError {
    /// The sizes are not allowed.
    #[error("the sizes are not allowed")]
    BadGeometry = 1,
    /// The device has fewer sectors than a store of these sizes takes.
    #[error("the device is too small")]
    TooSmall,
    /// The rows have more bytes than a checkpoint area of this size has room for.
    #[error("the rows do not fit the checkpoint area")]
    Unfit,
    /// Memory was refused.
    #[error("out of memory")]
    NoMemory,
    /// A call of the device failed. The device has to be formatted again.
    #[error("the device failed")]
    Fault,
}

/// The epoch of the half that is written.
const EPOCH: u64 = 1;

/// Makes a store of these sizes with these rows at this place, whatever was on the device before.
/// The rows are in the first half's checkpoint, of epoch 1 and version `LATEST`; both journals are
/// empty. No clause says which half, epoch and version these are. The call takes a buffer of
/// `BUFFER` bytes.
#[tactic(auto, using(crate::proofs::CopySteps::made_here))]
pub fn format_with<D: Device>(
    alloc: Global,
    device: &mut D,
    geometry: Geometry,
    db: &PathDb,
    place: u64,
) -> Result<(), CopyError>
    ensures keeps { Keeps (D.disk device.old) (D.disk device.new) }
    ensures answer { FormatsWith (geometry_view geometry) db.now place result (D.disk device.old) (D.disk device.new) }

    // At every moment the bytes after the store are unchanged. On a device of zeros, an image that
    // a stop leaves at any moment does not open, or opens to these rows at this place.
    ensures any_moment { Stretch (D.disk device.old) (D.disk device.new) (IsBeingMade (geometry_view geometry) db.now place (D.disk device.old)) }
{
    if !geometry.is_allowed() {
        return Err(CopyError::BadGeometry);
    }
    if device.sectors() < geometry.sectors() {
        return Err(CopyError::TooSmall);
    }
    if db.encoded_len() > area_room(geometry.checkpoint) {
        return Err(CopyError::Unfit);
    }
    let Ok(mut buffer) = vec![in alloc; 0; BUFFER] else {
        return Err(CopyError::NoMemory);
    };
    match lay_out_with(device, geometry, db, place, &mut buffer) {
        Ok(()) => Ok(()),
        Err(_) => Err(CopyError::Fault),
    }
}

/// Closes the gates of both halves, writes the title, then the rows to the first half's area, and
/// opens that half. Each step is synced before the next one.
fn lay_out_with<D: Device>(
    device: &mut D,
    geometry: Geometry,
    db: &PathDb,
    place: u64,
    buffer: &mut [u8],
) -> Result<(), DevError>
    requires may { MayHoldRows (geometry_view geometry) db.now (D.disk device.old) }
    requires buffer { length buffer.old ≡ BUFFER }
    ensures keeps { Keeps (D.disk device.old) (D.disk device.new) }
    ensures faults { (D.disk device.new).faults ≡ count_after result (D.disk device.old).faults }
    ensures done { OnOk result (IsHonest (D.disk device.old) → HoldsStoreWith (geometry_view geometry) db.now place (D.disk device.new)) }
    ensures any_moment { Stretch (D.disk device.old) (D.disk device.new) (IsBeingMade (geometry_view geometry) db.now place (D.disk device.old)) }
{
    written_rows_are_counted();
    let head = checkpoint_head(db, EPOCH, place);
    device.sync()?;
    write_through(device, geometry.gate_at(Half::First), &closed_gates())?;
    write_through(device, geometry.gate_at(Half::Second), &closed_gates())?;
    write_through(device, 0, &title_sector(geometry))?;
    lay(device, geometry.area_at(Half::First), &head, db, buffer)?;
    write_through(device, geometry.gate_at(Half::First), &open_gate())
}
