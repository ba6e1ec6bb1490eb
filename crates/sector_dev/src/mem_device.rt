//! A device in memory.
ghost use Rattle.std.specs.Prelude.{◌≡◌, ℕ, ◌+◌, ◌*◌, ◌%◌, ◌^◌, ◌<◌, ◌≤◌, length, IfOk};
ghost use Rattle.std.proofs.Common.{arith};
ghost use Rattle.byte_lists.specs.Content.{AreBytes};
ghost use Rattle.byte_lists.specs.declared.format.TheConstants.{SECTOR};

use crate::ghosts::trail::{Trail, fresh_trail, trail_synced, trail_wrote};
use crate::{DevError, Device, SECTOR};
use std::alloc::{AllocError, Global};

/// An honest device in memory. Its calls never fail.
#[derive(Drop)]
pub struct MemDevice {
    bytes: Vec<u8>,
    sectors: u64,
    trail: Trail,
    ghost small: { sectors ≤ 2 ^ 32 },
    ghost size: { length bytes.items ≡ SECTOR * sectors },
    ghost are_bytes: { AreBytes bytes.items },
}

impl MemDevice {
    ghost use Rattle.byte_lists.specs.Content.{part};
    ghost use Rattle.sector_dev.specs.Disk.{after_write, reads_of};
    ghost use Rattle.sector_dev.specs.MemDevice.{memory_disk, zeroed_disk, torn_bytes};

    /// A device of zeros with this number of sectors. An error means that memory was refused.
    pub fn new(alloc: Global, sectors: u64) -> Result<MemDevice, AllocError>
        requires { sectors ≤ 2 ^ 32 }
        ensures { IfOk result (λ device. memory_disk device ≡ zeroed_disk sectors) }
    {
        let bytes = vec![in alloc; 0; SECTOR * sectors as usize]?;
        Ok(MemDevice {
            bytes,
            sectors,
            trail: fresh_trail(),
        })
    }

    /// A write that a stop tears, from sector `at` on: its first `keep` bytes land, and all others
    /// become `fill`. The range is dirty.
    pub fn tear(&mut self, at: u64, bytes: &[u8], keep: usize, fill: u8)
        requires { SECTOR * at + length bytes.now ≤ SECTOR * (memory_disk self.old).sectors }
        ensures { memory_disk self.new ≡ record (memory_disk self.old) {
          history = after_write (SECTOR * at) (torn_bytes keep fill bytes.now) (memory_disk self.old).history;
        } }
    {
        let start = SECTOR * at as usize;
        let landed = keep.min(bytes.len());
        self.trail = trail_wrote(&self.trail, &self.bytes, SECTOR as u64 * at, bytes.len());
        let range = &mut self.bytes[start..start + bytes.len()];
        range[..landed].copy_from_slice(&bytes[..landed]);
        range[landed..].fill(fill);
    }

    /// A write of `len` bytes from sector `at` on, of which nothing lands. The range is dirty all
    /// the same.
    pub fn touch(&mut self, at: u64, len: usize)
        requires { SECTOR * at + len ≤ SECTOR * (memory_disk self.old).sectors }
        ensures { memory_disk self.new ≡ record (memory_disk self.old) {
          history = after_write (SECTOR * at) (part (SECTOR * at) len (reads_of (memory_disk self.old))) (memory_disk self.old).history;
        } }
    {
        self.trail = trail_wrote(&self.trail, &self.bytes, SECTOR as u64 * at, len);
    }
}

impl Device for MemDevice {
    ghost use Rattle.std.proofs.Common.{arith};
    ghost use Rattle.sector_dev.specs.MemDevice.{memory_disk};

    ghost disk = { memory_disk };

    ghost fits = { λ device. Prim.omega (arith, device.small) };

    ghost whole = { λ device honest. record { size = device.size; bytes = device.are_bytes } };

    fn sectors(&self) -> u64 {
        self.sectors
    }

    fn read(&mut self, at: u64, into: &mut [u8]) -> Result<(), DevError> {
        let start = SECTOR * at as usize;
        into.copy_from_slice(&self.bytes[start..start + into.len()]);
        Ok(())
    }

    fn write(&mut self, at: u64, bytes: &[u8]) -> Result<(), DevError> {
        let start = SECTOR * at as usize;
        self.trail = trail_wrote(&self.trail, &self.bytes, start as u64, bytes.len());
        self.bytes[start..start + bytes.len()].copy_from_slice(bytes);
        Ok(())
    }

    fn sync(&mut self) -> Result<(), DevError> {
        self.trail = trail_synced(&self.trail, &self.bytes);
        Ok(())
    }

    fn faults(&self) -> u64 {
        0
    }
}
