//! Copying a store.

ghost use Rattle.std.specs.Prelude.{◌≡◌, OnOk, IfErr};
ghost use Rattle.std.specs.Io.KnownBytes.{Appends};
ghost use Rattle.sector_dev.specs.Stretch.{Stretch};
ghost use Rattle.store_layout.specs.Geometry.{geometry_view};
ghost use Rattle.cli_store.specs.Copying.{IsCopied, FailsToCopy, IsBeingCopied};
ghost use Rattle.cli_store.specs.Devices.{LeavesDevice, faults_after_command};

use crate::error::Fault;
use crate::text::copied_line;
use crate::writing::write_all;
use sector_dev::Device;
use std::alloc::Global;
use std::io::Write;
use store_open::{Geometry, format_with, look};

/// Makes a store of these sizes on a device, whatever was on it, with the rows and the place to
/// which another device opens, and prints how many rows these are, and the place. The other device
/// is only read.
pub fn copy<A: Device, B: Device, W: Write>(
    alloc: Global,
    from: &mut A,
    to: &mut B,
    geometry: Geometry,
    writer: &mut W,
) -> Result<(), Fault>
    ensures leaves { LeavesDevice (A.disk from.old) (A.disk from.new) }
    ensures copied { OnOk result (IsCopied (geometry_view geometry) (A.disk from.old) (B.disk to.new)
        (Appends (W.contents writer.old) (W.contents writer.new))) }
    ensures refused { IfErr result (λ fault. FailsToCopy fault (geometry_view geometry) (A.disk from.old) (B.disk to.old) (B.disk to.new)
        (W.contents writer.old) (W.contents writer.new)) }

    // Returns the fault of the device that is read exactly when a call of it failed.
    ensures faults { (A.disk from.new).faults ≡ faults_after_command result (A.disk from.old).faults }

    // At every moment the bytes after the copy are unchanged. On a device of zeros, an image that a
    // stop leaves at any moment does not open, or opens to the rows and the place of the other one.
    ensures any_moment { Stretch (B.disk to.old) (B.disk to.new) (IsBeingCopied (geometry_view geometry) (A.disk from.old) (B.disk to.old)) }
{
    let folded = look(alloc, from)?;
    let Ok(line) = copied_line(alloc, folded.db.len(), folded.place) else {
        return Err(Fault::Memory);
    };
    format_with(alloc, to, geometry, &folded.db, folded.place)?;
    write_all(writer, line.as_bytes())
}
