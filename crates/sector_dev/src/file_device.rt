//! A device over a file.
ghost use Rattle.std.specs.Prelude.{◌≡◌, ◌+◌, ◌*◌, ◌%◌, ◌<◌, ◌≤◌, ◌^◌, ◌-◌, length, IfOk};
ghost use Rattle.byte_lists.specs.declared.format.TheConstants.{SECTOR};
ghost use Rattle.sector_dev.specs.PositionedFile.{IsHonestFile, CoversDirty, LeavesFile, SyncsFile};

use crate::ghosts::trail::{HoldsBytes, Trail, trail_over, trail_synced, trail_wrote};
use crate::transfers::{read_whole, write_whole};
use crate::{DevError, Device, PositionedFile, SECTOR};
use std::io;

/// The whole sectors of a file, of the length that the file had when the device was made. The
/// device is honest if the file is. A call returns `Fault` exactly where the file's count of
/// failures grows: where a transfer failed or moved nothing, or a sync failed.
#[derive(Drop)]
pub struct FileDevice<F: PositionedFile> {
    file: F,
    sectors: u64,
    faults: u64,
    trail: Trail,
    ghost small: { SECTOR * sectors < 2 ^ 64 },
    ghost dirty_covered: { IsHonestFile (F.state file) → CoversDirty trail.value.dirty (F.state file) },
    ghost covered: { IsHonestFile (F.state file) → SECTOR * sectors ≤ length (F.state file).bytes },
}

impl<F: PositionedFile> HoldsBytes for FileDevice<F> {
    ghost use Rattle.sector_dev.specs.Disk.{reads_of};
    ghost use Rattle.sector_dev.specs.FileDevice.{file_disk};

    ghost bytes = { λ device. reads_of (file_disk device) };
}

impl<F: PositionedFile> FileDevice<F> {
    ghost use Rattle.sector_dev.specs.FileDevice.{IsMadeOver, CoversImages, file_disk, file_of, file_state};
    ghost use Rattle.sector_dev.specs.Calls.{one_more};

    /// A device over the file's whole sectors. The bytes after them are never touched. The error is
    /// that of the call for the file's length.
    pub fn new(mut file: F) -> io::Result<FileDevice<F>>
    where
        F: Drop,
        ensures disk { IfOk result (λ device. IsMadeOver (F.state file) (file_disk device)) }
        ensures file { IfOk result (λ device. LeavesFile (F.state file) (file_state device)) }
    {
        let sectors = file.size()? / SECTOR as u64;
        let trail = trail_over(&file);
        Ok(FileDevice {
            file,
            sectors,
            faults: 0,
            trail,
        })
    }

    /// Returns the file, and ends the device.
    pub fn into_file(self) -> F
        ensures { result ≡ file_of self }
    {
        let FileDevice { file, .. } = self;
        file
    }

    /// Whatever a stop may leave of an honest file now is, in the device's sectors, an image of the
    /// device now. The call does nothing.
    pub fn covers_images(&self)
        ensures { CoversImages (file_state self.now) (file_disk self.now) }
    {}

    // Counts a failed call, and returns its error.
    fn count(&mut self) -> DevError
        ensures disk { file_disk self.new ≡ record (file_disk self.old) { faults = one_more self.old.faults } }
        ensures file { file_state self.new ≡ file_state self.old }
    {
        self.faults = self.faults.saturating_add(1);
        DevError::Fault
    }
}

impl<F: PositionedFile> Device for FileDevice<F> {
    ghost use Rattle.std.proofs.Common.{arith};
    ghost use Rattle.sector_dev.specs.Calls.{ReadCall, WriteCall, SyncCall};
    ghost use Rattle.sector_dev.specs.FileDevice.{file_disk, file_state, FailsWithFile, CoversCall, WritesWhole};
    ghost use Rattle.sector_dev.specs.FileLaws.{whole_front};

    ghost disk = { file_disk };

    ghost fits = { λ device. device.small };

    ghost whole = { λ device honest.
        let parts = whole_front device.sectors (F.state device.file).bytes (device.covered honest) (F.bytes device.file honest)
        in record { size = parts.0; bytes = parts.1 } };

    fn sectors(&self) -> u64 {
        self.sectors
    }

    fn read(&mut self, at: u64, into: &mut [u8]) -> Result<(), DevError>
        requires whole { length into.old % SECTOR ≡ 0 }
        requires inside { SECTOR * at + length into.old ≤ SECTOR * (file_disk self.old).sectors }
        ensures read { ReadCall at into.new result (file_disk self.old) (file_disk self.new) }
        ensures failures { FailsWithFile result (file_state self.old) (file_state self.new) }
        ensures file { LeavesFile (file_state self.old) (file_state self.new) }
        ensures covered { CoversCall (file_state self.old) (file_state self.new) (file_disk self.old) (file_disk self.new) }
    {
        match read_whole(&mut self.file, SECTOR as u64 * at, into) {
            Ok(()) => Ok(()),
            Err(_) => Err(self.count()),
        }
    }

    fn write(&mut self, at: u64, bytes: &[u8]) -> Result<(), DevError>
        requires whole { length bytes.now % SECTOR ≡ 0 }
        requires inside { SECTOR * at + length bytes.now ≤ SECTOR * (file_disk self.old).sectors }
        ensures write { WriteCall at bytes.now result (file_disk self.old) (file_disk self.new) }
        ensures failures { FailsWithFile result (file_state self.old) (file_state self.new) }
        ensures file { WritesWhole (SECTOR * at) bytes.now result (file_state self.old) (file_state self.new) }
        ensures covered { CoversCall (file_state self.old) (file_state self.new) (file_disk self.old) (file_disk self.new) }
    {
        let offset = SECTOR as u64 * at;
        let trail = trail_wrote(&self.trail, &*self, offset, bytes.len());
        self.trail = trail;
        match write_whole(&mut self.file, offset, bytes) {
            Ok(()) => Ok(()),
            Err(_) => Err(self.count()),
        }
    }

    fn sync(&mut self) -> Result<(), DevError>
        ensures sync { SyncCall result (file_disk self.old) (file_disk self.new) }
        ensures failures { FailsWithFile result (file_state self.old) (file_state self.new) }
        ensures file { SyncsFile result (file_state self.old) (file_state self.new) }
        ensures covered { CoversCall (file_state self.old) (file_state self.new) (file_disk self.old) (file_disk self.new) }
    {
        match self.file.sync_data() {
            Ok(()) => {
                let trail = trail_synced(&self.trail, &*self);
                self.trail = trail;
                Ok(())
            }
            Err(_) => Err(self.count()),
        }
    }

    fn faults(&self) -> u64 {
        self.faults
    }
}
