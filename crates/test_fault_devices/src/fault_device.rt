//! A device of which one call fails.
ghost use Rattle.std.specs.Prelude.{◌≡◌, ◌+◌, ◌-◌, ◌*◌, ◌%◌, ◌<◌, ◌≤◌, length, OnErr, Some};
ghost use Rattle.byte_lists.specs.declared.format.TheConstants.{SECTOR};

use sector_dev::{DevError, Device, MemDevice};

/// A device in memory of which one call of `read`, `write` or `sync` fails. All other calls are
/// passed on. Where the failing call is a write, nothing of it lands.
#[derive(Drop)]
pub struct FaultDevice {
    memory: MemDevice,
    before: Option<u64>,
}

impl FaultDevice {
    ghost use Rattle.test_fault_devices.specs.FaultDevice.{fault_disk, fault_memory, calls_before_fault, CountsDown};
    ghost use Rattle.sector_dev.specs.MemDevice.{memory_disk};

    /// A device whose call of this number fails. The first call has number 0.
    pub fn new(memory: MemDevice, number: u64) -> FaultDevice
        ensures disk { fault_disk result ≡ memory_disk memory }
        ensures before { calls_before_fault result ≡ Some number }
    {
        FaultDevice {
            memory,
            before: Some(number),
        }
    }

    /// The device in memory with its present contents.
    pub fn into_mem(self) -> MemDevice
        ensures { result ≡ fault_memory self }
    {
        let FaultDevice { memory, .. } = self;
        memory
    }

    // Counts one call, and returns an error if this is the call that fails.
    fn count(&mut self) -> Result<(), DevError>
        ensures counts { CountsDown result self.old self.new }
        ensures memory { fault_memory self.new ≡ fault_memory self.old }
    {
        match self.before {
            None => Ok(()),
            Some(0) => {
                self.before = None;
                Err(DevError::Fault)
            }
            Some(n) => {
                self.before = Some(n - 1);
                Ok(())
            }
        }
    }
}

impl Device for FaultDevice {
    ghost use Rattle.std.specs.Prelude.{◌≡◌, ◌+◌, ◌-◌, ◌*◌, ◌%◌, ◌<◌, ◌≤◌, length, OnErr};
    ghost use Rattle.std.proofs.Common.{arith};
    ghost use Rattle.byte_lists.specs.Content.{part};
    ghost use Rattle.sector_dev.specs.Disk.{after_write, reads_of};
    ghost use Rattle.sector_dev.specs.Calls.{ReadCall, WriteCall, SyncCall};
    ghost use Rattle.test_fault_devices.specs.FaultDevice.{fault_disk, CountsDown};

    ghost disk = { fault_disk };

    ghost fits = { λ device. Prim.omega (arith, device.memory.small) };

    ghost whole = { λ device honest. record { size = device.memory.size; bytes = device.memory.are_bytes } };

    fn sectors(&self) -> u64 {
        self.memory.sectors()
    }

    fn read(&mut self, at: u64, into: &mut [u8]) -> Result<(), DevError>
        requires whole { length into.old % SECTOR ≡ 0 }
        requires inside { SECTOR * at + length into.old ≤ SECTOR * (fault_disk self.old).sectors }
        ensures read { ReadCall at into.new result (fault_disk self.old) (fault_disk self.new) }
        ensures counts { CountsDown result self.old self.new }
    {
        self.count()?;
        self.memory.read(at, into)
    }

    fn write(&mut self, at: u64, bytes: &[u8]) -> Result<(), DevError>
        requires whole { length bytes.now % SECTOR ≡ 0 }
        requires inside { SECTOR * at + length bytes.now ≤ SECTOR * (fault_disk self.old).sectors }
        ensures write { WriteCall at bytes.now result (fault_disk self.old) (fault_disk self.new) }
        ensures counts { CountsDown result self.old self.new }
        ensures unchanged { OnErr result ((fault_disk self.new).history ≡ after_write (SECTOR * at)
            (part (SECTOR * at) (length bytes.now) (reads_of (fault_disk self.old))) (fault_disk self.old).history) }
    {
        if self.count().is_ok() {
            return self.memory.write(at, bytes);
        }
        self.memory.touch(at, bytes.len());
        Err(DevError::Fault)
    }

    fn sync(&mut self) -> Result<(), DevError>
        ensures sync { SyncCall result (fault_disk self.old) (fault_disk self.new) }
        ensures counts { CountsDown result self.old self.new }
    {
        self.count()?;
        self.memory.sync()
    }

    fn faults(&self) -> u64 {
        match self.before {
            None => 1,
            Some(_) => 0,
        }
    }
}
