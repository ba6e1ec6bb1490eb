//! A file over its calls, with a count of its failures.
ghost use Rattle.std.specs.Prelude.{◌≡◌, ◌≢◌, ◌≤◌, length, take, IfOk, IfErr, OnOk, OnErr};
ghost use Rattle.std.specs.IoError.{error_kind};
ghost use Rattle.byte_lists.specs.Content.{part};
ghost use Rattle.sector_dev.specs.PositionedFile.{TransfersOut, TransfersIn, SyncsFile, IsHonestFile};
ghost use Rattle.sector_dev.specs.FileCalls.{LandsCall};

use crate::{FaultKind, FileCalls, FileFault, LastFault, PositionedFile};
use std::alloc::{AllocError, Global};
use std::fs::File;
use std::io;
use std::io::{Error, ErrorKind};
use std::sync::Arc;

/// A file with a count of its failures, which stays at 2^64 - 1, and a note of the last one. A
/// transfer that a signal interrupts before any byte moved is repeated, and counts as one: no
/// transfer returns `Interrupted`. A sync fails too where the file is then shorter than it was when
/// it was opened, or has no name any more, so that a file that others cut, replace or unlink is
/// noticed before a sync succeeds.
#[derive(Drop)]
pub struct CountedFile<F: FileCalls> {
    file: F,
    opened: u64,
    failures: u64,
    last: Arc<LastFault>,
}

/// A file of the system, or a block device. No contract states what such a file returns or keeps,
/// so the file is not known to be honest.
pub type SystemFile = CountedFile<File>;

impl<F: FileCalls> CountedFile<F> {
    ghost use Rattle.sector_dev.specs.Calls.{one_more};
    ghost use Rattle.sector_dev.specs.PositionedFile.{failures_after_transfer};
    ghost use Rattle.sector_dev.specs.CountedFile.{calls_of, failures_of, opened_len, last_fault_of, ReturnedLen, IsInPlace};
    ghost use Rattle.std.specs.Arc.{arc_value};

    /// A file whose count of failures is 0. The error is that of the call for the file's status, or
    /// `OutOfMemory` where memory was refused.
    pub fn new(alloc: Global, file: F) -> io::Result<CountedFile<F>>
    where
        F: Drop,
        ensures file { IfOk result (λ counted. calls_of counted ≡ file) }
        ensures failures { IfOk result (λ counted. failures_of counted ≡ 0) }
        ensures opened { IfOk result (λ counted. ReturnedLen F.returned_status file (opened_len counted)) }
    {
        let opened = file.status()?.len;
        let last = Arc::new(alloc, LastFault::new())?;
        Ok(CountedFile {
            file,
            opened,
            failures: 0,
            last,
        })
    }

    /// The number of its transfers and syncs that have failed, at most 2^64 - 1.
    pub fn failures(&self) -> u64
        ensures { result ≡ failures_of self.now }
    {
        self.failures
    }

    /// The note of the last failure, shared with the file, which goes on to write it. No contract
    /// can state what is in it. An error means that memory was refused.
    pub fn last_fault(&self) -> Result<Arc<LastFault>, AllocError>
        ensures shared { IfOk result (λ last. arc_value last ≡ last_fault_of self.now) }
    {
        Arc::try_clone(&self.last)
    }

    /// Returns the file of the calls, and ends this one.
    pub fn into_calls(self) -> F
        ensures { result ≡ calls_of self }
    {
        let CountedFile { file, .. } = self;
        file
    }

    // Looks whether the file was cut or unlinked.
    fn find_in_place(&self) -> Result<(), FileFault>
        ensures { OnOk result (IsInPlace F.returned_status (opened_len self.now) (calls_of self.now)) }
    {
        let status = self.file.status().map_err(status_fault)?;
        if status.len < self.opened {
            return Err(FileFault {
                kind: FaultKind::Cut,
                errno: None,
            });
        }
        if status.links == 0 {
            return Err(FileFault {
                kind: FaultKind::Unlinked,
                errno: None,
            });
        }
        Ok(())
    }

    // Counts a failure, and notes it.
    fn count(&mut self, fault: FileFault)
        ensures { self.new ≡ record self.old { failures = one_more (failures_of self.old) } }
    {
        self.last.note(fault);
        self.failures = self.failures.saturating_add(1);
    }

    // Counts a transfer of this kind in which `asked` bytes were asked for, where it failed or
    // moved none of them.
    fn count_transfer(&mut self, kind: FaultKind, asked: usize, moved: &io::Result<usize>)
        ensures { self.new ≡ record self.old { failures = failures_after_transfer asked moved.now (failures_of self.old) } }
    {
        match moved {
            Ok(n) if *n > 0 || asked == 0 => {}
            Ok(_) => self.count(FileFault { kind, errno: None }),
            Err(error) => self.count(FileFault {
                kind,
                errno: error.raw_os_error(),
            }),
        }
    }
}

impl<F: FileCalls> PositionedFile for CountedFile<F> {
    ghost use Rattle.sector_dev.specs.CountedFile.{calls_of, opened_len, counted_state, IsInPlace};

    ghost state = { counted_state F.state };

    ghost bytes = { λ counted honest. F.bytes counted.file honest };

    fn size(&mut self) -> io::Result<u64>
        ensures same { self.new ≡ self.old }
        ensures size { IsHonestFile (F.state (calls_of self.old)) → IfOk result (λ n. n ≡ length (F.state (calls_of self.old)).bytes) }
    {
        Ok(self.file.status()?.len)
    }

    fn read_at(&mut self, offset: u64, into: &mut [u8]) -> io::Result<usize>
        ensures out { TransfersOut offset into.new result (counted_state F.state self.old) (counted_state F.state self.new) }
        ensures settled { IfErr result (λ e. error_kind e ≢ ErrorKind.Interrupted) }
        ensures opened { opened_len self.new ≡ opened_len self.old }
    {
        let moved = read_on(&self.file, offset, into);
        self.count_transfer(FaultKind::Read, into.len(), &moved);
        moved
    }

    fn write_at(&mut self, offset: u64, bytes: &[u8]) -> io::Result<usize>
        ensures into { TransfersIn offset bytes.now result (counted_state F.state self.old) (counted_state F.state self.new) }
        ensures settled { IfErr result (λ e. error_kind e ≢ ErrorKind.Interrupted) }
        ensures opened { opened_len self.new ≡ opened_len self.old }
    {
        let moved = write_on(&mut self.file, offset, bytes);
        self.count_transfer(FaultKind::Write, bytes.len(), &moved);
        moved
    }

    fn sync_data(&mut self) -> io::Result<()>
        ensures sync { SyncsFile result (counted_state F.state self.old) (counted_state F.state self.new) }
        ensures in_place { OnOk result (IsInPlace F.returned_status (opened_len self.old) (calls_of self.new)) }
        ensures opened { opened_len self.new ≡ opened_len self.old }
    {
        if let Err(error) = self.file.sync_once() {
            self.count(FileFault {
                kind: FaultKind::Sync,
                errno: error.raw_os_error(),
            });
            return Err(error);
        }
        if let Err(fault) = self.find_in_place() {
            self.count(fault);
            return Err(Error::new(ErrorKind::Other, "the file is not in place"));
        }
        Ok(())
    }
}

// The failure where the status was not returned.
fn status_fault(error: Error) -> FileFault {
    FileFault {
        kind: FaultKind::Status,
        errno: error.raw_os_error(),
    }
}

// Reads once, and again as long as a signal interrupts the read.
fn read_on<F: FileCalls>(file: &F, offset: u64, into: &mut [u8]) -> io::Result<usize>
    ensures most { IfOk result (λ n. n ≤ length into.new) }
    ensures bytes { IsHonestFile (F.state file.now) → IfOk result (λ n. take n into.new ≡ part offset n (F.state file.now).bytes) }
    ensures settled { IfErr result (λ e. error_kind e ≢ ErrorKind.Interrupted) }
{
    for _ in 0..u64::MAX {
        match file.read_once(offset, into) {
            Err(error) if error.kind() == ErrorKind::Interrupted => {}
            moved => return moved,
        }
    }
    Err(never_settled())
}

// Writes once, and again as long as a signal interrupts the write.
fn write_on<F: FileCalls>(file: &mut F, offset: u64, bytes: &[u8]) -> io::Result<usize>
    ensures most { IfOk result (λ n. n ≤ length bytes.now) }
    ensures lands { LandsCall offset bytes.now result (F.state file.old) (F.state file.new) }
    ensures settled { IfErr result (λ e. error_kind e ≢ ErrorKind.Interrupted) }
{
    for _ in 0..u64::MAX {
        match file.write_once(offset, bytes) {
            Err(error) if error.kind() == ErrorKind::Interrupted => {}
            moved => return moved,
        }
    }
    Err(never_settled())
}

// The error after signals interrupted 2^64 - 1 tries.
fn never_settled() -> Error
    ensures { error_kind result ≡ ErrorKind.TimedOut }
{
    Error::from(ErrorKind::TimedOut)
}
