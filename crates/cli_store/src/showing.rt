//! Showing a store.

ghost use Rattle.std.specs.Prelude.{◌≡◌, IfOk, IfErr};
ghost use Rattle.sector_dev.specs.Image.{IsFromImage};
ghost use Rattle.sector_dev.specs.Stretch.{Stretch};
ghost use Rattle.store_open.specs.Open.{OpensAlike};
ghost use Rattle.cli_store.specs.Devices.{device_after, faults_left};
ghost use Rattle.cli_store.specs.Showing.{ShowsStore, FailsToShow};

use crate::error::Fault;
use crate::writing::write_store;
use row_lines::RowForm;
use sector_dev::Device;
use std::alloc::Global;
use std::io::Write;
use store_open::open;

/// Opens a device, and prints its rows in the order of their keys, a line each, and as text its
/// place, too. The device is returned.
pub fn show<D: Device, W: Write>(
    alloc: Global,
    device: D,
    form: RowForm,
    writer: &mut W,
) -> Result<D, (D, Fault)>
    ensures ok { IfOk result (λ _. ShowsStore form (D.disk device) (W.contents writer.old) (W.contents writer.new)) }
    ensures err { IfErr result (λ back. FailsToShow form back.1 (D.disk device) (W.contents writer.old) (W.contents writer.new)) }

    // At every moment, what a stop leaves is an image of the start, or opens with what one of the
    // start opens with.
    ensures any_moment { Stretch (D.disk device) (D.disk (device_after result)) (IsFromImage (D.disk device).history.now OpensAlike) }

    // Returns the device's fault exactly when a call failed.
    ensures faults { (D.disk (device_after result)).faults ≡ faults_left result (D.disk device).faults }
{
    match open(alloc, device) {
        Ok(store) => {
            let written = write_store(alloc, form, store.db(), store.place(), writer);
            let device = store.into_device();
            match written {
                Ok(()) => Ok(device),
                Err(fault) => Err((device, fault)),
            }
        }
        Err((device, error)) => Err((device, Fault::from(error))),
    }
}
