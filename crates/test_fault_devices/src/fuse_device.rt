//! A device that stops for good after some calls, as at a loss of power.
ghost use Rattle.std.specs.Prelude.{◌≡◌, ◌+◌, ◌-◌, ◌*◌, ◌%◌, ◌<◌, ◌≤◌, length, OnErr, IsOk};
ghost use Rattle.byte_lists.specs.declared.format.TheConstants.{SECTOR};
ghost use Rattle.sector_dev.specs.Calls.{count_after, ReadCall, WriteCall, SyncCall};

use sector_dev::{DevError, Device, MemDevice};

/// How the write at which a fuse stops is torn: its first `keep` bytes land, and all others become
/// `fill`.
#[derive(Clone, Copy)]
pub struct Tear {
    pub keep: usize,
    pub fill: u8,
}

/// A device in memory of which some calls of `read`, `write` and `sync` succeed, and then all calls
/// fail. Where the first call that fails is a write, the write is torn. Of later writes nothing
/// lands.
#[derive(Drop)]
pub struct FuseDevice {
    memory: MemDevice,
    left: u64,
    tear: Tear,
    faults: u64,
}

impl FuseDevice {
    ghost use Rattle.test_fault_devices.specs.FuseDevice.{fuse_memory, fuse_disk, fuse_tear, calls_left, BurnsOne};
    ghost use Rattle.sector_dev.specs.MemDevice.{memory_disk};

    /// A device of which this number of calls succeed.
    pub fn new(memory: MemDevice, calls: u64, tear: Tear) -> FuseDevice
        ensures disk { fuse_disk result ≡ memory_disk memory }
        ensures calls { calls_left result ≡ calls }
        ensures tear { fuse_tear result ≡ tear }
    {
        FuseDevice {
            memory,
            left: calls,
            tear,
            faults: 0,
        }
    }

    /// The contents after the stop, in a device that works again.
    pub fn into_mem(self) -> MemDevice
        ensures { result ≡ fuse_memory self }
    {
        let FuseDevice { memory, .. } = self;
        memory
    }

    // Takes one from the calls that are left, or counts a call that fails.
    fn burn(&mut self) -> Result<(), DevError>
        ensures burns { BurnsOne result self.old self.new }
        ensures memory { fuse_memory self.new ≡ fuse_memory self.old }
        ensures faults { self.new.faults ≡ count_after result self.old.faults }
    {
        if self.left == 0 {
            self.faults = self.faults.saturating_add(1);
            return Err(DevError::Fault);
        }
        self.left -= 1;
        Ok(())
    }
}

impl Device for FuseDevice {
    ghost use Rattle.std.specs.Prelude.{◌≡◌, ◌+◌, ◌-◌, ◌*◌, ◌%◌, ◌<◌, ◌≤◌, length, OnErr};
    ghost use Rattle.std.proofs.Common.{arith};
    ghost use Rattle.sector_dev.specs.Calls.{ReadCall, WriteCall, SyncCall};
    ghost use Rattle.test_fault_devices.specs.FuseDevice.{fuse_disk, BurnsOne, after_stopped_write};

    ghost disk = { fuse_disk };

    ghost fits = { λ device. Prim.omega (arith, device.memory.small) };

    ghost whole = { λ device honest. record { size = device.memory.size; bytes = device.memory.are_bytes } };

    fn sectors(&self) -> u64 {
        self.memory.sectors()
    }

    fn read(&mut self, at: u64, into: &mut [u8]) -> Result<(), DevError>
        requires whole { length into.old % SECTOR ≡ 0 }
        requires inside { SECTOR * at + length into.old ≤ SECTOR * (fuse_disk self.old).sectors }
        ensures read { ReadCall at into.new result (fuse_disk self.old) (fuse_disk self.new) }
        ensures burns { BurnsOne result self.old self.new }
    {
        self.burn()?;
        self.memory.read(at, into)
    }

    fn write(&mut self, at: u64, bytes: &[u8]) -> Result<(), DevError>
        requires whole { length bytes.now % SECTOR ≡ 0 }
        requires inside { SECTOR * at + length bytes.now ≤ SECTOR * (fuse_disk self.old).sectors }
        ensures write { WriteCall at bytes.now result (fuse_disk self.old) (fuse_disk self.new) }
        ensures burns { BurnsOne result self.old self.new }
        ensures torn { OnErr result ((fuse_disk self.new).history ≡ after_stopped_write self.old at bytes.now) }
    {
        let is_first = self.faults == 0;
        if self.burn().is_ok() {
            return self.memory.write(at, bytes);
        }
        if is_first {
            self.memory.tear(at, bytes, self.tear.keep, self.tear.fill);
            return Err(DevError::Fault);
        }
        self.memory.touch(at, bytes.len());
        Err(DevError::Fault)
    }

    fn sync(&mut self) -> Result<(), DevError>
        ensures sync { SyncCall result (fuse_disk self.old) (fuse_disk self.new) }
        ensures burns { BurnsOne result self.old self.new }
    {
        self.burn()?;
        self.memory.sync()
    }

    fn faults(&self) -> u64 {
        self.faults
    }
}
