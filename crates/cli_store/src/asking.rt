//! Asking before a store is lost.

ghost use Rattle.std.specs.Prelude.{◌≡◌, false, true, codes, OnOk, IfErr};
ghost use Rattle.std.specs.Io.KnownBytes.{Consumes};
ghost use Rattle.sector_dev.specs.Calls.{one_more};
ghost use Rattle.sector_dev.specs.Disk.{IsHonest};
ghost use Rattle.store_open.specs.Titles.{has_title};
ghost use Rattle.cli_store.specs.Asking.{consent_of, IsOfAsking, IsTaken, KeepsStore, MayFormat};
ghost use Rattle.cli_store.specs.Devices.{LeavesDevice};

use crate::error::Fault;
use crate::writing::write_all;
use sector_dev::Device;
use std::alloc::{AllocError, Global};
use std::io::{Read, Write};
use store_open::{OpenError, has_title, look};

/// The most bytes that are read of an answer. A line that is longer is no agreement.
const ANSWER: usize = 512;

/// What the options of a command that makes a store say, and whether a person can be asked.
#[derive(Clone, Copy, Debug, PartialEq, Eq)]
pub struct Wishes {
    /// A store may be made only where none is.
    pub is_new: bool,
    /// A store that is there may be lost, and nobody is asked.
    pub is_forced: bool,
    /// A person reads what is printed, and answers.
    pub is_terminal: bool,
}

/// Whether a store that is there may be lost.
#[derive(Clone, Copy, Debug, PartialEq, Eq)]
pub enum Consent {
    /// It may be lost.
    Given,
    /// It is kept.
    Refused,
    /// A person decides.
    Asked,
}

/// What becomes of a store that is there: it is lost by force, else kept where a store may be made
/// only where none is, else a person decides. Where no person can be asked, it is lost.
pub fn decide(wishes: Wishes) -> Consent
    ensures { result ≡ consent_of wishes }
{
    if wishes.is_forced {
        Consent::Given
    } else if wishes.is_new {
        Consent::Refused
    } else if wishes.is_terminal {
        Consent::Asked
    } else {
        Consent::Given
    }
}

/// Whether a store may be made on a device, which is only read. Where sector 0 has the name of a
/// store, `decide` says what becomes of it. A person who is asked reads what is there under the
/// name `path`, and agrees by a line with the word `yes` alone. Errors:
///
/// - `Taken`: a store is there, and the options keep it.
/// - `Declined`: a store is there, and the person did not agree.
/// - `Open(OpenError::Device)`: sector 0 cannot be read.
/// - `Memory`, `Output`: the question was not printed, so that nobody was asked.
pub fn ask<D: Device, R: Read, W: Write>(
    alloc: Global,
    path: &str,
    device: &mut D,
    wishes: Wishes,
    reader: &mut R,
    writer: &mut W,
) -> Result<(), Fault>
    ensures leaves { LeavesDevice (D.disk device.old) (D.disk device.new) }
    ensures agreed { OnOk result (IsHonest (D.disk device.old) → MayFormat wishes (D.disk device.old) (R.remaining reader.old) (R.remaining reader.new)) }
    ensures kept { IfErr result (λ fault. KeepsStore fault wishes (D.disk device.old)) }

    // The fault of the device is returned only where a call of it failed.
    ensures fault { IfErr result (λ fault. fault ≡ Fault.Open OpenError.Device
        → (D.disk device.new).faults ≡ one_more (D.disk device.old).faults) }
{
    let consent = decide(wishes);
    if consent == Consent::Given {
        return Ok(());
    }
    match has_title(device) {
        Ok(false) => Ok(()),
        Ok(true) => match consent {
            Consent::Asked => ask_person(alloc, path, device, reader, writer),
            _ => Err(Fault::Taken),
        },
        Err(_) => Err(Fault::Open(OpenError::Device)),
    }
}

/// Whether a device has no store, so that a copy may be made on it, whatever the options say. The
/// device is only read. Where sector 0 has the name of a store the error is `Taken`, and where it
/// cannot be read `Open(OpenError::Device)`.
pub fn vacant<D: Device>(device: &mut D) -> Result<(), Fault>
    ensures leaves { LeavesDevice (D.disk device.old) (D.disk device.new) }
    ensures vacant { OnOk result (IsHonest (D.disk device.old) → has_title (D.disk device.old) ≡ false) }
    ensures taken { IfErr result (λ fault. IsTaken fault (D.disk device.old)) }

    // The fault of the device is returned only where a call of it failed.
    ensures fault { IfErr result (λ fault. fault ≡ Fault.Open OpenError.Device
        → (D.disk device.new).faults ≡ one_more (D.disk device.old).faults) }
{
    match has_title(device) {
        Ok(false) => Ok(()),
        Ok(true) => Err(Fault::Taken),
        Err(_) => Err(Fault::Open(OpenError::Device)),
    }
}

/// Prints what is there, and reads the answer of a person: whether it may be lost.
fn ask_person<D: Device, R: Read, W: Write>(
    alloc: Global,
    path: &str,
    device: &mut D,
    reader: &mut R,
    writer: &mut W,
) -> Result<(), Fault>
    ensures leaves { LeavesDevice (D.disk device.old) (D.disk device.new) }
    ensures agreed { OnOk result (Consumes (R.remaining reader.old) (R.remaining reader.new) (codes "yes\n")) }
    ensures kept { IfErr result IsOfAsking }
{
    let Ok(text) = question(alloc, path, device) else {
        return Err(Fault::Memory);
    };
    write_all(writer, text.as_bytes())?;
    if writer.flush().is_err() {
        return Err(Fault::Output);
    }
    if reads_yes(reader) {
        Ok(())
    } else {
        Err(Fault::Declined)
    }
}

/// The lines that say what is there and that it would be lost, and the question.
fn question<D: Device>(alloc: Global, path: &str, device: &mut D) -> Result<String, AllocError>
    ensures leaves { LeavesDevice (D.disk device.old) (D.disk device.new) }
{
    let found = found_line(alloc, path, device)?;
    format!(in alloc;
        "{found}A new store takes its place, and all that it has is lost. To go on, type yes: "
    )
}

/// The line of the store that is there. A store for which memory is refused may open elsewhere.
fn found_line<D: Device>(alloc: Global, path: &str, device: &mut D) -> Result<String, AllocError>
    ensures leaves { LeavesDevice (D.disk device.old) (D.disk device.new) }
{
    match look(alloc, device) {
        Ok(folded) => {
            let (version, rows) = (folded.head.version, folded.db.len());
            let place = folded.place;
            format!(in alloc; "{path} has a store: version {version}, place {place}, {rows} rows\n")
        }
        Err(OpenError::NoMemory) => {
            format!(in alloc; "{path} has a store; there is no memory to open it\n")
        }
        Err(error) => { format!(in alloc; "{path} has a store that does not open: {error}\n") }
    }
}

/// Whether a line is read that has the word `yes` alone. One read is made, since a terminal gives a
/// line to each. Where the line is that, no more is read.
fn reads_yes<R: Read>(reader: &mut R) -> bool
    ensures { result ≡ true → Consumes (R.remaining reader.old) (R.remaining reader.new) (codes "yes\n") }
{
    let mut answer = [0; ANSWER];
    match reader.read(&mut answer) {
        Ok(count) => is_yes(&answer[..count]),
        Err(_) => false,
    }
}

/// Whether a line has the word `yes` alone.
fn is_yes(line: &[u8]) -> bool
    ensures { result ≡ true → line.now ≡ codes "yes\n" }
{
    line == b"yes\n".as_slice()
}
