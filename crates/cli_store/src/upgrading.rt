//! Bringing a store to the version that is written.

ghost use Rattle.std.specs.Prelude.{◌≡◌, OnOk, OnErr, IfOk, IfErr};
ghost use Rattle.std.specs.Io.KnownBytes.{Appends};
ghost use Rattle.sector_dev.specs.Disk.{IsHonest};
ghost use Rattle.sector_dev.specs.Image.{IsFromImage};
ghost use Rattle.sector_dev.specs.Stretch.{Stretch};
ghost use Rattle.store_open.specs.Behind.{SameBehind};
ghost use Rattle.store_open.specs.Store.{OpensToStore};
ghost use Rattle.cli_store.specs.Devices.{device_after, faults_left};
ghost use Rattle.cli_store.specs.Stops.{KeepsItsStore};
ghost use Rattle.cli_store.specs.Text.{version_line};
ghost use Rattle.cli_store.specs.Upgrading.{IsUpgraded, FailsToUpgrade, BecomesLatest};
ghost use Rattle.whole_writes.specs.Written.{IsWrittenInPart};

use crate::error::Fault;
use crate::writing::write_all;
use sector_dev::Device;
use std::alloc::Global;
use std::io::Write;
use store_open::{Store, StoreError, open};

/// Opens a device, makes a checkpoint at rest where its store is of version 1, and prints the
/// version, which is 2 then. The device is returned.
#[tactic(auto, using(crate::proofs::Stops::opened_moments))]
pub fn upgrade<D: Device, W: Write>(
    alloc: Global,
    device: D,
    writer: &mut W,
) -> Result<D, (D, Fault)>
    ensures ok { IfOk result (λ after. IsHonest (D.disk device) → IsUpgraded (D.disk device) (D.disk after)) }
    ensures printed { OnOk result (Appends (W.contents writer.old) (W.contents writer.new) version_line) }
    ensures err { IfErr result (λ back. FailsToUpgrade back.1 (D.disk device) (D.disk back.0) (W.contents writer.old) (W.contents writer.new)) }

    // A stop at any moment leaves an image that opens to the rows and the place of before, and the
    // bytes after the store unchanged.
    ensures any_moment { KeepsItsStore (D.disk device) (D.disk (device_after result)) }

    // Returns the device's fault exactly when a call failed.
    ensures faults { (D.disk (device_after result)).faults ≡ faults_left result (D.disk device).faults }
{
    match open(alloc, device) {
        Ok(mut store) => {
            let made = make_latest(&mut store);
            let device = store.into_device();
            match made {
                Ok(()) => print_version(device, writer),
                Err(error) => Err((device, Fault::from(error))),
            }
        }
        Err((device, error)) => Err((device, Fault::from(error))),
    }
}

/// Makes a checkpoint of a store of version 1.
fn make_latest<D: Device>(store: &mut Store<D>) -> Result<(), StoreError>
    ensures latest { BecomesLatest result store.old store.new }
    ensures any_moment { Stretch store.old.disk store.new.disk (OpensToStore store.old) }
    ensures behind { Stretch store.old.disk store.new.disk (IsFromImage store.old.disk.history.now (SameBehind store.old.geometry)) }
{
    if store.version() == 1 {
        return store.checkpoint();
    }
    Ok(())
}

/// Prints the version of the store on a device.
fn print_version<D, W: Write>(device: D, writer: &mut W) -> Result<D, (D, Fault)>
    ensures ok { IfOk result (λ after. after ≡ device) }
    ensures printed { OnOk result (Appends (W.contents writer.old) (W.contents writer.new) version_line) }
    ensures err { IfErr result (λ back. (back.0 ≡ device) × (back.1 ≡ Fault.Output)) }
    ensures part { OnErr result (IsWrittenInPart (W.contents writer.old) (W.contents writer.new) version_line) }
{
    match write_all(writer, b"version 2\n") {
        Ok(()) => Ok(device),
        Err(fault) => Err((device, fault)),
    }
}
