//! The contract of a device.
ghost use Rattle.std.specs.Prelude.{◌≡◌, ◌+◌, ◌*◌, ◌%◌, ◌^◌, ◌<◌, ◌≤◌, length};
ghost use Rattle.byte_lists.specs.declared.format.TheConstants.{SECTOR};
ghost use Rattle.sector_dev.specs.Disk.{Disk, IsHonest, IsWhole};
ghost use Rattle.sector_dev.specs.Calls.{ReadCall, WriteCall, SyncCall};

use std::error::Error;
use std::fmt;

/// Why a call of a device failed.
#[derive(Clone, Copy, Debug)]
pub enum DevError {
    /// The device failed in this call, and counted the failure.
    Fault = 1,
}

impl fmt::Display for DevError {
    fn fmt<W: fmt::Write>(&self, f: &mut fmt::Formatter<W>) -> fmt::Result {
        match self {
            DevError::Fault => write!(f, "the device failed"),
        }
    }
}

impl Error for DevError {}

/// A device of 512-byte sectors. The argument `at` counts sectors.
///
/// Contracts see a device as a `Disk`. No call changes whether the device is honest. What contracts
/// state of reads, and of the contents after a stop, holds for an honest device. No call takes
/// memory.
pub trait Device {
    /// The device as contracts see it.
    ghost disk: { Self → Disk };

    /// The number of sectors. No call changes it.
    fn sectors(&self) -> u64
        ensures sectors { result ≡ (disk self.now).sectors };

    /// Reads whole sectors from sector `at` on into `into`. After a failed read `into` may have any
    /// bytes.
    fn read(&mut self, at: u64, into: &mut [u8]) -> Result<(), DevError>
        requires whole { length into.old % SECTOR ≡ 0 }
        requires inside { SECTOR * at + length into.old ≤ SECTOR * (disk self.old).sectors }
        ensures read { ReadCall at into.new result (disk self.old) (disk self.new) };

    /// Writes whole sectors from sector `at` on. A failed write may leave any bytes in its range.
    /// Until a sync succeeds, a stop may leave any bytes in the range, whatever the write returned.
    fn write(&mut self, at: u64, bytes: &[u8]) -> Result<(), DevError>
        requires whole { length bytes.now % SECTOR ≡ 0 }
        requires inside { SECTOR * at + length bytes.now ≤ SECTOR * (disk self.old).sectors }
        ensures write { WriteCall at bytes.now result (disk self.old) (disk self.new) };

    /// After a sync that succeeds, a stop leaves the bytes that reads return. A sync that fails
    /// changes nothing.
    fn sync(&mut self) -> Result<(), DevError>
        ensures sync { SyncCall result (disk self.old) (disk self.new) };

    /// The number of calls that have failed, at most 2^64 - 1.
    fn faults(&self) -> u64
        ensures faults { result ≡ (disk self.now).faults };

    /// Offsets into the device in bytes fit a `u64`.
    ghost fits: { (device : Self) → SECTOR * (disk device).sectors < 2 ^ 64 };

    /// Reads of an honest device return bytes, 512 for each sector.
    ghost whole: { (device : Self) → IsHonest (disk device) → IsWhole (disk device) };
}
