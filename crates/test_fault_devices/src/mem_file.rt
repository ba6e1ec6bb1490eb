//! A file in memory.
ghost use Rattle.std.specs.Prelude.{◌≡◌, true, []};
ghost use Rattle.byte_lists.specs.Content.{AreBytes};

use sector_dev::{FileCalls, FileStatus, Trail, fresh_trail, trail_synced};
use std::io;

/// An honest file in memory, of which one transfer moves at most a given number of bytes. Its calls
/// never return an error.
#[derive(Drop)]
pub struct MemFile {
    bytes: Vec<u8>,
    at_most: usize,
    trail: Trail,
    ghost clean: { trail.value.dirty ≡ [] },
    ghost are_bytes: { AreBytes bytes.items },
}

impl MemFile {
    ghost use Rattle.test_fault_devices.specs.MemFile.{memory_state, transfer_limit, transfer_length};

    /// A file of these bytes. One transfer moves at most `at_most` bytes.
    pub fn new(bytes: Vec<u8>, at_most: usize) -> MemFile
        ensures state { memory_state result ≡ record { is_honest = true; bytes = bytes.items; dirty = []; past = []; failures = 0 } }
        ensures most { transfer_limit result ≡ at_most }
    {
        MemFile {
            bytes,
            at_most,
            trail: fresh_trail(),
        }
    }

    // The number of bytes that one transfer moves at an offset, where `asked` bytes are asked for.
    fn room(&self, offset: u64, asked: usize) -> usize
        ensures { result ≡ transfer_length self.now offset asked }
    {
        if offset >= self.bytes.len() as u64 {
            return 0;
        }
        let rest = self.bytes.len() - offset as usize;
        asked.min(rest).min(self.at_most)
    }
}

impl FileCalls for MemFile {
    ghost use Rattle.std.specs.Prelude.{◌≡◌, ◌≤◌, Ok, IsOk, IfOk, length, take};
    ghost use Rattle.byte_lists.specs.Content.{part};
    ghost use Rattle.sector_dev.specs.FileCalls.{LandsCall, SyncsCall};
    ghost use Rattle.test_fault_devices.specs.MemFile.{memory_state, memory_status, transfer_length};

    ghost state = { memory_state };

    ghost returned_status = { λ file status. status ≡ memory_status file };

    ghost bytes = { λ file honest. file.are_bytes };

    fn status(&self) -> io::Result<FileStatus>
        ensures { result ≡ Ok (memory_status self.now) }
    {
        Ok(FileStatus {
            len: self.bytes.len() as u64,
            links: 1,
        })
    }

    fn read_once(&self, offset: u64, into: &mut [u8]) -> io::Result<usize>
        ensures bytes { IfOk result (λ n. take n into.new ≡ part offset n (memory_state self.now).bytes) }
        ensures moved { result ≡ Ok (transfer_length self.now offset (length into.old)) }
    {
        let n = self.room(offset, into.len());
        if n == 0 {
            return Ok(0);
        }
        let start = offset as usize;
        into[..n].copy_from_slice(&self.bytes[start..start + n]);
        Ok(n)
    }

    fn write_once(&mut self, offset: u64, bytes: &[u8]) -> io::Result<usize>
        ensures lands { LandsCall offset bytes.now result (memory_state self.old) (memory_state self.new) }
        ensures moved { result ≡ Ok (transfer_length self.old offset (length bytes.now)) }
    {
        let n = self.room(offset, bytes.len());
        if n == 0 {
            return Ok(0);
        }
        let start = offset as usize;
        // No write is lost, so that nothing is dirty after it.
        self.trail = trail_synced(&self.trail, &self.bytes);
        self.bytes[start..start + n].copy_from_slice(&bytes[..n]);
        Ok(n)
    }

    fn sync_once(&mut self) -> io::Result<()>
        ensures sync { SyncsCall result (memory_state self.old) (memory_state self.new) }
        ensures done { IsOk result }
    {
        Ok(())
    }
}
