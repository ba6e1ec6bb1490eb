//! The status of a store.

ghost use Rattle.std.specs.Prelude.{◌≡◌, IfOk, string_bytes};
ghost use Rattle.cli_store.specs.Devices.{LeavesDevice, faults_after_command};
ghost use Rattle.cli_store.specs.FoldedStatus.{folded_status};
ghost use Rattle.cli_store.specs.Status.{ReportsSo, number_line, part_line, sealed_line, head_lines, use_lines, status_text};

use crate::error::Fault;
use crate::writing::write_all;
use ckpt_pair::area_room;
use sector_dev::Device;
use std::alloc::{AllocError, Global};
use std::io::Write;
use store_open::{Folded, look};

/// Prints the numbers of a device's store, a line each: the version, the epoch, the place, the
/// rows, their bytes and of how many, the sectors used of the last journal and of how many, and
/// whether the chosen half's journal is sealed. The device is only read.
pub fn status<D: Device, W: Write>(
    alloc: Global,
    device: &mut D,
    writer: &mut W,
) -> Result<(), Fault>
    ensures leaves { LeavesDevice (D.disk device.old) (D.disk device.new) }
    ensures answer { ReportsSo result (D.disk device.old) (W.contents writer.old) (W.contents writer.new) }

    // Returns the device's fault exactly when a call failed.
    ensures faults { (D.disk device.new).faults ≡ faults_after_command result (D.disk device.old).faults }
{
    match look(alloc, device) {
        Ok(folded) => {
            let Ok(text) = status_text(alloc, &folded) else {
                return Err(Fault::Memory);
            };
            write_all(writer, text.as_bytes())
        }
        Err(error) => Err(Fault::from(error)),
    }
}

fn status_text(alloc: Global, folded: &Folded) -> Result<String, AllocError>
    ensures { IfOk result (λ text. string_bytes text ≡ status_text (folded_status folded.now)) }
{
    let head = head_lines(alloc, folded)?;
    let used = use_lines(alloc, folded)?;
    format!(in alloc; "{head}{used}")
}

/// The lines of the version, the epoch, the place and the rows.
fn head_lines(alloc: Global, folded: &Folded) -> Result<String, AllocError>
    ensures { IfOk result (λ text. string_bytes text ≡ head_lines (folded_status folded.now)) }
{
    let version = number_line(alloc, "version", u64::from(folded.head.version))?;
    let epoch = number_line(alloc, "epoch", folded.head.epoch)?;
    let place = number_line(alloc, "place", folded.place)?;
    let rows = number_line(alloc, "rows", folded.db.len() as u64)?;
    format!(in alloc; "{version}{epoch}{place}{rows}")
}

/// The lines of how much of the store is used.
fn use_lines(alloc: Global, folded: &Folded) -> Result<String, AllocError>
    ensures { IfOk result (λ text. string_bytes text ≡ use_lines (folded_status folded.now)) }
{
    let most = area_room(folded.geometry.checkpoint);
    let bytes = part_line(alloc, "bytes", folded.db.encoded_len(), most)?;
    let sectors = u64::from(folded.geometry.journal);
    let journal = part_line(alloc, "journal", folded.gate, sectors)?;
    let sealed = sealed_line(folded.sealed);
    format!(in alloc; "{bytes}{journal}{sealed}")
}

fn number_line(alloc: Global, name: &str, number: u64) -> Result<String, AllocError>
    ensures { IfOk result (λ line. string_bytes line ≡ number_line name.now number) }
{
    format!(in alloc; "{name} {number}\n")
}

fn part_line(alloc: Global, name: &str, part: u64, whole: u64) -> Result<String, AllocError>
    ensures { IfOk result (λ line. string_bytes line ≡ part_line name.now part whole) }
{
    format!(in alloc; "{name} {part} of {whole}\n")
}

fn sealed_line(sealed: bool) -> &'static str
    ensures { result.now ≡ sealed_line sealed }
{
    if sealed {
        "sealed yes\n"
    } else {
        "sealed no\n"
    }
}
