//! Making a store.

ghost use Rattle.sector_dev.specs.Calls.{Keeps};
ghost use Rattle.sector_dev.specs.Image.{IsFromImage};
ghost use Rattle.sector_dev.specs.Stretch.{Stretch};
ghost use Rattle.store_layout.specs.Geometry.{geometry_view};
ghost use Rattle.store_open.specs.Behind.{SameBehind};
ghost use Rattle.cli_store.specs.Formatting.{FormatsAndPrints};

use crate::error::Fault;
use crate::text::formatted_line;
use crate::writing::write_all;
use sector_dev::Device;
use std::alloc::Global;
use std::io::Write;
use store_open::Geometry;

/// Makes an empty store of these sizes, whatever the device had on it, and prints how many sectors
/// the store takes.
#[tactic(auto, using(store_open::proofs::Behind::kept_here))]
pub fn format<D: Device, W: Write>(
    alloc: Global,
    device: &mut D,
    geometry: Geometry,
    writer: &mut W,
) -> Result<(), Fault>
    ensures keeps { Keeps (D.disk device.old) (D.disk device.new) }
    ensures answer { FormatsAndPrints (geometry_view geometry) result (D.disk device.old) (D.disk device.new) (W.contents writer.old) (W.contents writer.new) }

    // At every moment the bytes after the store are unchanged.
    ensures behind { Stretch (D.disk device.old) (D.disk device.new)
        (IsFromImage (D.disk device.old).history.now (SameBehind (geometry_view geometry))) }
{
    let Ok(line) = formatted_line(alloc, geometry.sectors()) else {
        return Err(Fault::Memory);
    };
    match store_open::format(device, geometry) {
        Ok(()) => write_all(writer, line.as_bytes()),
        Err(error) => Err(Fault::Format(error)),
    }
}
