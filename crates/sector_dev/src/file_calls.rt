//! The calls of an open file, one for one.
ghost use Rattle.std.specs.Prelude.{◌≡◌, ◌≤◌, ℕ, length, take, IfOk, IfErr};
ghost use Rattle.std.specs.IoError.{error_kind};
ghost use Rattle.byte_lists.specs.Content.{AreBytes, part};
ghost use Rattle.sector_dev.specs.PositionedFile.{FileState, IsHonestFile};
ghost use Rattle.sector_dev.specs.FileCalls.{LandsCall, SyncsCall};
ghost use Rattle.sector_dev.specs.declared.file_calls.FileStatus.{FileStatus};

use std::io;
use std::io::ErrorKind;

/// The length of a file, and the number of its names.
#[derive(Clone, Copy)]
pub struct FileStatus {
    /// The length in bytes, also of a block device.
    pub len: u64,
    /// The number of names that the file has in its folders. 0 means that the file was unlinked.
    pub links: u64,
}

/// The calls of an open file. Each method makes one call with its arguments and returns the result
/// of that call: nothing is repeated and nothing is counted. `status` of a block device alone makes
/// two.
///
/// What a contract states of the bytes holds for an honest file. The count of failures of `state`
/// has no meaning here.
pub trait FileCalls {
    /// The file as contracts see it.
    ghost state: { Self → FileState };

    /// `status` returned this for the file in this state. Code that is generic in the file can show
    /// it by a call of `status` alone.
    ghost returned_status: { Self → FileStatus → Type 0 };

    /// The length of the file and the number of its names.
    fn status(&self) -> io::Result<FileStatus>
        ensures size { IsHonestFile (state self.now) → IfOk result (λ status. status.len ≡ length (state self.now).bytes) }
        ensures returned { IfOk result (λ status. returned_status self.now status) };

    /// Reads once at an offset, into the first bytes of `into`, and returns their number.
    fn read_once(&self, offset: u64, into: &mut [u8]) -> io::Result<usize>
        ensures most { IfOk result (λ n. n ≤ length into.new) }
        ensures bytes { IsHonestFile (state self.now) → IfOk result (λ n. take n into.new ≡ part offset n (state self.now).bytes) };

    /// Writes once at an offset, from the first of these bytes, and returns their number. A write
    /// that a signal interrupted has moved no byte.
    fn write_once(&mut self, offset: u64, bytes: &[u8]) -> io::Result<usize>
        ensures most { IfOk result (λ n. n ≤ length bytes.now) }
        ensures lands { LandsCall offset bytes.now result (state self.old) (state self.new) }
        ensures interrupted { IfErr result (λ e. error_kind e ≡ ErrorKind.Interrupted → state self.new ≡ state self.old) };

    /// Brings the bytes that were written to stable storage.
    fn sync_once(&mut self) -> io::Result<()>
        ensures sync { SyncsCall result (state self.old) (state self.new) };

    ghost bytes: { (file : Self) → IsHonestFile (state file) → AreBytes (state file).bytes };
}
