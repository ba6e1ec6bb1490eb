//! A file in memory that loses at a stop what was not synced.
ghost use Rattle.std.specs.Prelude.{◌≡◌, ◌+◌, ◌≤◌, true, [], IfOk, length};
ghost use Rattle.byte_lists.specs.Content.{AreBytes, overwrite};
ghost use Rattle.sector_dev.specs.Image.{IsImage};

use sector_dev::{FileCalls, FileStatus, Trail, fresh_trail, trail_synced, trail_wrote};
use std::alloc::{AllocError, Global};
use std::io;

/// An honest file in memory. A stop loses what was written since the last sync. One transfer moves
/// at most a given number of bytes, and no call returns an error.
#[derive(Drop)]
pub struct CachedFile {
    bytes: Vec<u8>,
    kept: Vec<u8>,
    at_most: usize,
    trail: Trail,
    ghost are_bytes: { AreBytes bytes.items },
    ghost kept_image: { IsImage (record { reads = bytes.items; dirty = trail.value.dirty }) kept.items },
}

impl CachedFile {
    ghost use Rattle.sector_dev.specs.PositionedFile.{file_moment};
    ghost use Rattle.test_fault_devices.specs.CachedFile.{cached_state, kept_bytes, cached_limit, cached_length};

    /// A file of these bytes, all of which a stop leaves. One transfer moves at most `at_most`
    /// bytes. An error means that memory was refused.
    pub fn new(alloc: Global, bytes: Vec<u8>, at_most: usize) -> Result<CachedFile, AllocError>
        ensures state { IfOk result (λ file. cached_state file ≡ record { is_honest = true; bytes = bytes.items; dirty = []; past = []; failures = 0 }) }
        ensures kept { IfOk result (λ file. kept_bytes file ≡ bytes.items) }
        ensures most { IfOk result (λ file. cached_limit file ≡ at_most) }
    {
        let mut kept = Vec::new(alloc);
        kept.extend_from_slice(&bytes)?;
        Ok(CachedFile {
            bytes,
            kept,
            at_most,
            trail: fresh_trail(),
        })
    }

    /// The bytes that a stop leaves: those at the last sync, or those that the file was made of.
    pub fn stop(self) -> Vec<u8>
        ensures kept { result.items ≡ kept_bytes self }
        ensures image { IsImage (file_moment (cached_state self)) result.items }
    {
        let CachedFile { kept, .. } = self;
        kept
    }

    // The number of bytes that one transfer moves at an offset, where `asked` bytes are asked for.
    fn room(&self, offset: u64, asked: usize) -> usize
        ensures { result ≡ cached_length self.now offset asked }
    {
        if offset >= self.bytes.len() as u64 {
            return 0;
        }
        let rest = self.bytes.len() - offset as usize;
        asked.min(rest).min(self.at_most)
    }
}

impl FileCalls for CachedFile {
    ghost use Rattle.std.specs.Prelude.{◌≡◌, ◌≤◌, Ok, IsOk, IfOk, length, take};
    ghost use Rattle.byte_lists.specs.Content.{part};
    ghost use Rattle.sector_dev.specs.FileCalls.{LandsCall, SyncsCall};
    ghost use Rattle.test_fault_devices.specs.CachedFile.{cached_state, cached_status, kept_bytes, cached_length};

    ghost state = { cached_state };

    ghost returned_status = { λ file status. status ≡ cached_status file };

    ghost bytes = { λ file honest. file.are_bytes };

    fn status(&self) -> io::Result<FileStatus>
        ensures { result ≡ Ok (cached_status self.now) }
    {
        Ok(FileStatus {
            len: self.bytes.len() as u64,
            links: 1,
        })
    }

    fn read_once(&self, offset: u64, into: &mut [u8]) -> io::Result<usize>
        ensures bytes { IfOk result (λ n. take n into.new ≡ part offset n (cached_state self.now).bytes) }
        ensures moved { result ≡ Ok (cached_length self.now offset (length into.old)) }
    {
        let n = self.room(offset, into.len());
        if n == 0 {
            return Ok(0);
        }
        let start = offset as usize;
        into[..n].copy_from_slice(&self.bytes[start..start + n]);
        Ok(n)
    }

    fn write_once(&mut self, offset: u64, bytes: &[u8]) -> io::Result<usize>
        ensures lands { LandsCall offset bytes.now result (cached_state self.old) (cached_state self.new) }
        ensures moved { result ≡ Ok (cached_length self.old offset (length bytes.now)) }
        ensures kept { kept_bytes self.new ≡ kept_bytes self.old }
    {
        let n = self.room(offset, bytes.len());
        if n == 0 {
            return Ok(0);
        }
        self.trail = trail_wrote(&self.trail, &self.bytes, offset, n);
        put_bytes(&mut self.bytes, offset as usize, &bytes[..n]);
        Ok(n)
    }

    fn sync_once(&mut self) -> io::Result<()>
        ensures sync { SyncsCall result (cached_state self.old) (cached_state self.new) }
        ensures done { IsOk result }
        ensures kept { kept_bytes self.new ≡ (cached_state self.old).bytes }
    {
        self.kept.copy_from_slice(&self.bytes);
        self.trail = trail_synced(&self.trail, &self.bytes);
        Ok(())
    }
}

// Puts these bytes at an offset.
fn put_bytes(held: &mut Vec<u8>, start: usize, bytes: &[u8])
    requires { start + length bytes.now ≤ length held.old.items }
    ensures { held.new.items ≡ overwrite start bytes.now held.old.items }
{
    held[start..start + bytes.len()].copy_from_slice(bytes);
}
