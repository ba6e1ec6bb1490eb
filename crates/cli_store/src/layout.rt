//! Drawing the regions of a device.

ghost use Rattle.std.specs.Prelude.{◌≡◌, ◌≤◌};
ghost use Rattle.sector_dev.specs.Disk.{IsHonest, reads_of};
ghost use Rattle.store_layout.specs.FirstSector.{geometry_in};
ghost use Rattle.store_layout.specs.Layout.{IsGeometry, image_sectors};
ghost use Rattle.store_layout.specs.Geometry.{geometry_view};
ghost use Rattle.store_open.specs.Looking.{LooksAt};
ghost use Rattle.cli_store.specs.Devices.{LeavesDevice, faults_after_command};
ghost use Rattle.cli_store.specs.Drawing.{DrawsSo};

use crate::drawing::draw_store;
use crate::error::Fault;
use crate::halves::{Halves, read_half};
use crate::writing::write_all;
use sector_dev::{DevError, Device};
use std::alloc::Global;
use std::io::Write;
use store_layout::Half;
use store_open::{Geometry, OpenError, read_geometry};

/// Draws the regions of a device, a line each: the sectors, the region, and what is read there. The
/// call changes nothing, and also draws a device that would not be opened.
pub fn show_layout<D: Device, W: Write>(
    alloc: Global,
    device: &mut D,
    writer: &mut W,
) -> Result<(), Fault>
    ensures leaves { LeavesDevice (D.disk device.old) (D.disk device.new) }
    ensures drawn { IsHonest (D.disk device.old) → DrawsSo result (geometry_in (reads_of (D.disk device.old))) (W.contents writer.old) (W.contents writer.new) }

    // Returns the device's fault exactly when a call failed.
    ensures faults { (D.disk device.new).faults ≡ faults_after_command result (D.disk device.old).faults }
{
    let sectors = device.sectors();
    match read_geometry(device) {
        Ok(Some(geometry)) => match read_halves(device, geometry) {
            Ok(halves) => draw_store(alloc, geometry, sectors, &halves, writer),
            Err(_) => Err(Fault::Open(OpenError::Device)),
        },
        Ok(None) => write_all(writer, b"no store\n"),
        Err(_) => Err(Fault::Open(OpenError::Device)),
    }
}

/// Reads both halves.
fn read_halves<D: Device>(device: &mut D, geometry: Geometry) -> Result<Halves, DevError>
    requires allowed { IsGeometry (geometry_view geometry) }
    requires room { image_sectors (geometry_view geometry) ≤ (D.disk device.old).sectors }
    ensures { LooksAt result (D.disk device.old) (D.disk device.new) }
{
    let first = read_half(device, geometry, Half::First)?;
    let second = read_half(device, geometry, Half::Second)?;
    Ok(Halves { first, second })
}
